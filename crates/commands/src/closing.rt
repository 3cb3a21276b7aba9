// Closing: a begun operand is completed and applied, then the command finishes by the operand that is due.
ghost use Rattle.std.specs.Prelude.{◌≡◌, ◌+◌, ◌≤◌, length, Ok};
ghost use Rattle.rules.specs.Numbers.{record_size};
ghost use Rattle.rules.specs.Drawing.{row_of, complete, finish, new_command, close};
ghost use Rattle.figures.specs.Carried.{carry_out, carried_of};

use data_bytes::{apply_begun, role_due};
use figures::answers::move_if;
use figures::tracing::put_figure;
use figures::{TooManyVertices, finishing};
use records::head_of;
use rules::{Command, Drawing, Due, Mode, NO_OPERAND, ORIGIN, Point, Role, Row};
use settings::close_text;

// A command just opened at a point; opcode 0 is none.
pub fn new_command(opcode: u8, point: Point) -> Command
    ensures { result ≡ new_command opcode point }
{
    Command {
        opcode,
        due: Due::First,
        vertices: 1,
        start: point,
        kept: ORIGIN,
        noted: false,
    }
}

// An operand that is begun is applied, the bytes that have not come being zero bits.
fn complete(
    row: Row,
    drawing: &mut Drawing,
    out: &mut [u8],
    at: usize,
) -> Result<usize, TooManyVertices>
    requires { (drawing.old.pen.operand.count ≤ 8) × (drawing.old.look.colour.foreground ≤ 15) × (at + record_size ≤ length out.old) }
    ensures { carried_of result at drawing.new out.new ≡ carry_out (complete row) drawing.old at out.old }
{
    if drawing.pen.operand.count == 0 {
        return Ok(at);
    }
    apply_begun(row, drawing, out, at)
}

// By the operand that is due SELECT COLOUR with none sets mode 0, TEXT sets the cursor, and other commands finish by a figure or
// by none.
#[tactic(auto, unfolding(figures::specs::Tracing::finishes_apart))]
fn finish(role: Role, row: Row, drawing: &mut Drawing, out: &mut [u8], at: usize) -> usize
    requires { at + record_size ≤ length out.old }
    ensures { carried_of (Ok result) at drawing.new out.new
        ≡ carry_out (finish role row.filled) drawing.old at out.old }
{
    match role {
        Role::Foreground => drawing.look.colour.mode = Mode::Direct,
        Role::TextFirst => drawing.pen = close_text(Due::First, drawing.pen),
        Role::TextSecond => drawing.pen = close_text(Due::Second, drawing.pen),
        Role::TextField => drawing.pen = close_text(Due::Third, drawing.pen),
        Role::TextMore => drawing.pen = close_text(Due::Past, drawing.pen),
        _ => {
            let done = finishing::finish(role, row, drawing.pen.point, drawing.command);
            let ink = head_of(drawing.look, 0, 0, 0, 0);
            move_if(done.moved, &mut drawing.pen, done.point);
            return put_figure(done.figure, ink, drawing.look.domain.pel, out, at);
        }
    }
    at
}

// Closes the command that the row is of. Only the operand that is begun can be refused, before anything is written.
pub fn close(
    row: Row,
    drawing: &mut Drawing,
    out: &mut [u8],
    at: usize,
) -> Result<usize, TooManyVertices>
    requires { (row ≡ row_of drawing.old.command.opcode) × (drawing.old.pen.operand.count ≤ 8)
        × (drawing.old.look.colour.foreground ≤ 15) × (at + 80 ≤ length out.old) }
    ensures { carried_of result at drawing.new out.new ≡ carry_out close drawing.old at out.old }
{
    let at = complete(row, drawing, out, at)?;
    let role = role_due(row, drawing.command);
    let at = finish(role, row, drawing, out, at);
    drawing.pen.operand = NO_OPERAND;
    drawing.command = new_command(0, ORIGIN);
    Ok(at)
}
