// Commands closed and opened in a run, with no operand begun.
ghost use Rattle.std.specs.Prelude.{◌≡◌, false, List, ℕ, ◌+◌, ◌<◌, ◌≤◌, length};
ghost use Rattle.rules.specs.Numbers.{room_for_step, origin};
ghost use Rattle.rules.specs.declared.Look.{Look};
ghost use Rattle.rules.specs.declared.Operand.{Operand};
ghost use Rattle.rules.specs.declared.Text.{Text};
ghost use Rattle.rules.specs.Drawing.{row_of, role_of, new_command};
ghost use Rattle.figures.specs.Tracing.{Inks, finishes_apart};
ghost use Rattle.command_steps.specs.Asked.{GoesOn};

use commands::closing::new_command;
use commands::opening::{open_at, put_mark};
use data_bytes::role_due;
use figures::finishing::finish;
use figures::tracing::put_figure;
use records::Head;
use rules::{Command, ORIGIN, Point, RECORD_SIZE, Row};

// The place after the records, the drawing point and whether it was moved, and the command that is open. The point stands where it was
// not moved too.
#[derive(Clone, Copy)]
pub struct Next {
    pub at: usize,
    pub moved: bool,
    pub point: Point,
    pub command: Command,
}

// A control closes the command that the row is of, and has its record.
pub fn mark_next(
    byte: u8,
    row: Row,
    p: Point,
    command: Command,
    ink: Head,
    pel: Point,
    out: &mut [u8],
    at: usize,
) -> Next
    requires { (byte < 32) × (row ≡ row_of command.opcode) × (finishes_apart (role_of row.pattern command.due) ≡ false)
        × (at + room_for_step ≤ length out.old) }
    ensures drawn { (l : Look) (t : Text) (o : Operand) (m : List ℕ) → Inks ink pel l → o.count ≡ 0
        → GoesOn byte p t o command l m at out.old result out.new }
    ensures left { (result.moved ≡ false → result.point ≡ p) × (result.command ≡ new_command 0 origin) × (result.at ≤ at + 80) }
{
    let role = role_due(row, command);
    let done = finish(role, row, p, command);
    let at = put_figure(done.figure, ink, pel, out, at);
    let point = done.point;
    put_mark(ink, 7, byte, point, pel, out, at);
    Next {
        at: at + RECORD_SIZE,
        moved: done.moved,
        point,
        command: new_command(0, ORIGIN),
    }
}

// A control or an opcode closes the command that the row is of; an opcode opens another, which has the next row.
#[tactic(auto, using(crate::proofs::OpeningLaws::row_control))]
pub fn open_next(
    byte: u8,
    next: Row,
    row: Row,
    p: Point,
    command: Command,
    ink: Head,
    pel: Point,
    out: &mut [u8],
    at: usize,
) -> Next
    requires { (row ≡ row_of command.opcode) × (finishes_apart (role_of row.pattern command.due) ≡ false)
        × (at + room_for_step ≤ length out.old) × (next ≡ row_of byte) }
    ensures { ((l : Look) (t : Text) (o : Operand) (m : List ℕ) → Inks ink pel l → o.count ≡ 0
        → GoesOn byte p t o command l m at out.old result out.new)
        × (result.moved ≡ false → result.point ≡ p) × (next ≡ row_of result.command.opcode) × (result.at ≤ at + 80) }
{
    if byte < 32 {
        return mark_next(byte, row, p, command, ink, pel, out, at);
    }
    let role = role_due(row, command);
    let done = finish(role, row, p, command);
    let at = put_figure(done.figure, ink, pel, out, at);
    let point = done.point;
    let opened = open_at(byte, next, point, ink, pel, out, at);
    Next {
        at: opened.at,
        moved: done.moved,
        point,
        command: opened.command,
    }
}
