// The drawing layer: an action becomes records and a change of the drawing state, or a refusal.
#![tactic(auto)]

ghost use Rattle.std.specs.Prelude.{◌≡◌, true, [], ◌∷◌, ◌+◌, ◌≤◌, length, Ok};
ghost use Rattle.rules.specs.Numbers.{record_size, room_for_step};
ghost use Rattle.rules.specs.Drawing.{and_then, close, reset_look, control_record, act};
ghost use Rattle.rules.specs.Ranges.{drawing_fits};
ghost use Rattle.figures.specs.Carried.{Puts, carry_out, carried_of};
ghost use Rattle.drawing.specs.After.{after_closing};

use commands::closing::close;
use commands::looks::fresh_look;
use commands::opening::open_at;
use data_bytes::data_byte;
use figures::TooManyVertices;
use figures::answers::put_one;
use moves::characters::typed;
use moves::movers::format;
use opcodes::row_of;
use positioning::placed;
use records::{character, head_of, mark, set_number};
use rules::{Action, Drawing, Look};
use settings::reset_text;

// NSR after its record: the fresh domain, mode 0 and white, and the fresh text; the addresses and the cursor stay.
fn reset_look(look: &mut Look)
    ensures { look.new ≡ reset_look look.old }
{
    *look = fresh_look(look.colour.foreground, look.colour.background);
}

// The record of a control at the drawing point, and the place after it.
fn put_control(byte: u8, drawing: &Drawing, out: &mut [u8], at: usize) -> usize
    requires { at + record_size ≤ length out.old }
    ensures { Puts (control_record byte drawing.now ∷ []) at out.old result out.new }
{
    put_one(mark(drawing.look, 7, 0, byte, drawing.pen.point), out, at)
}

// What an action does once the open command is closed: a control has a record of the drawing point and a character one of the
// cursor and the field, a format effector and a character then move the cursor, NSR resets, and an opcode opens.
#[tactic(auto, using(figures::proofs::Carrying::none_carried), unfolding(crate::specs::After::after_closing))]
fn after_closing(action: Action, drawing: &mut Drawing, out: &mut [u8], at: usize) -> usize
    requires { at + record_size ≤ length out.old }
    ensures { carried_of (Ok result) at drawing.new out.new ≡ carry_out (after_closing action) drawing.old at out.old }
{
    match action {
        Action::Control(byte) | Action::Cancel(byte) => put_control(byte, drawing, out, at),
        Action::Format(effector, byte) => {
            let at = put_control(byte, drawing, out, at);
            drawing.pen = format(effector, drawing.pen);
            at
        }
        Action::Reset(byte) => {
            let at = put_control(byte, drawing, out, at);
            drawing.pen.text = reset_text(drawing.pen.text);
            reset_look(&mut drawing.look);
            at
        }
        Action::Character(repertoire, code) => {
            let written = character(drawing.look, set_number(repertoire), code, drawing.pen.text);
            drawing.pen = typed(repertoire, code, drawing.pen);
            put_one(written, out, at)
        }
        Action::Opcode(opcode) => {
            let p = drawing.pen.point;
            let ink = head_of(drawing.look, 0, 0, 0, 0);
            let pel = drawing.look.domain.pel;
            let opened = open_at(opcode, row_of(opcode), p, ink, pel, out, at);
            drawing.command = opened.command;
            opened.at
        }
        Action::Idle | Action::Close | Action::Position(_, _, _) | Action::Data(_) => at,
    }
}

// Closes the open command, then does what the action asks of the state that closing leaves.
fn close_and(
    action: Action,
    drawing: &mut Drawing,
    out: &mut [u8],
    at: usize,
) -> Result<usize, TooManyVertices>
    requires { (drawing.old.pen.operand.count ≤ 8) × (drawing.old.look.colour.foreground ≤ 15)
        × (at + room_for_step ≤ length out.old) }
    ensures { carried_of result at drawing.new out.new
        ≡ carry_out (λ d. and_then (close d) (after_closing action)) drawing.old at out.old }
{
    let row = row_of(drawing.command.opcode);
    let closed = close(row, drawing, out, at)?;
    Ok(after_closing(action, drawing, out, closed))
}

// What an action draws, of a state in range; the output has room for three records.
pub fn act(
    action: Action,
    drawing: &mut Drawing,
    out: &mut [u8],
    at: usize,
) -> Result<usize, TooManyVertices>
    requires { (drawing_fits drawing.old ≡ true) × (at + room_for_step ≤ length out.old) }
    ensures { carried_of result at drawing.new out.new ≡ carry_out (act action) drawing.old at out.old }
{
    match action {
        Action::Idle => Ok(at),
        Action::Position(positioning, row, column) => {
            drawing.pen = placed(positioning, row, column, drawing.pen);
            Ok(at)
        }
        Action::Data(byte) => data_byte(row_of(drawing.command.opcode), byte, drawing, out, at),
        _ => close_and(action, drawing, out, at),
    }
}
