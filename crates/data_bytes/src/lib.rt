// Operands: data bytes join the one that is due, and the last of them applies it.
#![tactic(auto)]

ghost use Rattle.std.specs.Prelude.{◌≡◌, suc, ◌+◌, ◌<◌, ◌≤◌, length, set};
ghost use Rattle.rules.specs.Numbers.{record_size, room_for_step, most_vertices};
ghost use Rattle.rules.specs.Drawing.{role_of, due_after, with_due, no_operand, next_operand, apply_begun, loose_byte, data_byte};
ghost use Rattle.figures.specs.Carried.{carry_out, carried_of};

use applying::apply;
use figures::TooManyVertices;
use opcodes::{due_after, length_of, role_of};
use outlines::draw_codes;
use rules::{Command, Drawing, NO_OPERAND, Operand, Outline, Pen, Role, Row};

// The pen with no operand begun.
pub fn resting(pen: Pen) -> Pen
    ensures { result ≡ record { point = pen.point; text = pen.text; operand = no_operand } }
{
    Pen {
        operand: NO_OPERAND,
        ..pen
    }
}

// What the operand that is due is for.
pub fn role_due(row: Row, command: Command) -> Role
    ensures { result ≡ role_of row.pattern command.due }
{
    role_of(row.pattern, command.due)
}

// The command with its next operand due.
pub fn with_due(row: Row, command: Command) -> Command
    ensures { result ≡ with_due (due_after row.pattern command.due) command }
{
    Command {
        due: due_after(row.pattern, command.due),
        ..command
    }
}

// The next operand is due, none of it begun.
fn next_operand(row: Row, drawing: &mut Drawing)
    ensures { drawing.new ≡ next_operand row.pattern drawing.old }
{
    drawing.pen.operand = NO_OPERAND;
    drawing.command = with_due(row, drawing.command);
}

// Applies the operand that is begun.
pub fn apply_begun(
    row: Row,
    drawing: &mut Drawing,
    out: &mut [u8],
    at: usize,
) -> Result<usize, TooManyVertices>
    requires { (drawing.old.pen.operand.count ≤ 8) × (drawing.old.look.colour.foreground ≤ 15) × (at + record_size ≤ length out.old) }
    ensures { carried_of result at drawing.new out.new ≡ carry_out (apply_begun row) drawing.old at out.old }
{
    let role = role_due(row, drawing.command);
    let at = apply(role, row, drawing, out, at)?;
    next_operand(row, drawing);
    Ok(at)
}

// One byte more of the operand that is begun.
fn join_byte(operand: &mut Operand, byte: u8)
    requires { operand.old.count < 8 }
    ensures { operand.new
        ≡ record { bytes = set operand.old.bytes operand.old.count byte; count = suc operand.old.count } }
{
    operand.bytes[operand.count as usize] = byte;
    operand.count += 1;
}

// Data that makes no operand: the codes of an incremental command; other data is dropped.
fn loose_byte(
    row: Row,
    role: Role,
    byte: u8,
    drawing: &mut Drawing,
    out: &mut [u8],
    at: usize,
) -> Result<usize, TooManyVertices>
    requires { (role ≡ role_of row.pattern drawing.old.command.due) × (drawing.old.command.vertices ≤ most_vertices)
        × (at + room_for_step ≤ length out.old) }
    ensures { carried_of result at drawing.new out.new
        ≡ carry_out (loose_byte role row.filled byte) drawing.old at out.old }
{
    match role {
        Role::LineCodes => draw_codes(Outline::Line, row.filled, byte, drawing, out, at),
        Role::PolygonCodes => draw_codes(Outline::Polygon, row.filled, byte, drawing, out, at),
        _ => Ok(at),
    }
}

// A byte makes no operand, joins the one that is due, or is its last and applies it. A refused byte has not joined.
pub fn data_byte(
    row: Row,
    byte: u8,
    drawing: &mut Drawing,
    out: &mut [u8],
    at: usize,
) -> Result<usize, TooManyVertices>
    requires { (drawing.old.pen.operand.count < 8) × (drawing.old.look.colour.foreground ≤ 15)
        × (drawing.old.command.vertices ≤ most_vertices) × (at + room_for_step ≤ length out.old) }
    ensures { carried_of result at drawing.new out.new ≡ carry_out (data_byte row byte) drawing.old at out.old }
{
    let role = role_due(row, drawing.command);
    let bytes_due = length_of(role, drawing.look.domain);
    if bytes_due == 0 {
        return loose_byte(row, role, byte, drawing, out, at);
    }
    let mut operand = drawing.pen.operand;
    join_byte(&mut operand, byte);
    if operand.count < bytes_due {
        drawing.pen.operand = operand;
        return Ok(at);
    }
    let mut next = *drawing;
    next.pen.operand = operand;
    match apply_begun(row, &mut next, out, at) {
        Ok(at) => {
            *drawing = next;
            Ok(at)
        }
        Err(TooManyVertices) => Err(TooManyVertices),
    }
}
