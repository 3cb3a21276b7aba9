// Commands opened, once the one before is closed. A single step and a run open by these.
ghost use Rattle.std.specs.Prelude.{◌≡◌, false, List, ℕ, ◌+◌, ◌≤◌, length};
ghost use Rattle.rules.specs.Numbers.{record_size};
ghost use Rattle.rules.specs.declared.Look.{Look};
ghost use Rattle.rules.specs.declared.Operand.{Operand};
ghost use Rattle.rules.specs.declared.Text.{Text};
ghost use Rattle.rules.specs.Record.{bytes_of, mark};
ghost use Rattle.rules.specs.Drawing.{row_of, open_command};
ghost use Rattle.records.specs.Bytes.{overwrite};
ghost use Rattle.figures.specs.Carried.{carry_out, drawing_of};
ghost use Rattle.figures.specs.Tracing.{Inks, pen_at};

use crate::closing::new_command;
use records::{Head, put_words, with_code, with_kind};
use rules::{Command, ORIGIN, Point, RECORD_SIZE, Row};

// The place after the records, and the command that is open.
#[derive(Clone, Copy)]
pub struct Opened {
    pub at: usize,
    pub command: Command,
}

// Writes a record of the drawing point p.
pub fn put_mark(ink: Head, kind: u8, code: u8, p: Point, pel: Point, out: &mut [u8], at: usize)
    requires { at + record_size ≤ length out.old }
    ensures { (l : Look) → Inks ink pel l → out.new ≡ overwrite at (bytes_of (mark l kind 0 code p)) out.old }
{
    let head = with_code(with_kind(ink, kind, 0), code);
    put_words(out, at, head, p, ORIGIN, ORIGIN, pel);
}

// Opens the command that the row is of, at the drawing point p.
pub fn open_at(
    opcode: u8,
    row: Row,
    p: Point,
    ink: Head,
    pel: Point,
    out: &mut [u8],
    at: usize,
) -> Opened
    requires { (row ≡ row_of opcode) × (at + record_size ≤ length out.old) }
    ensures drawn { (l : Look) (t : Text) (o : Operand) (c : Command) (m : List ℕ) → Inks ink pel l
        → record {
          refused = false;
          drawing = drawing_of (pen_at p t o) result.command l m;
          at = result.at;
          output = out.new;
        }
        ≡ carry_out (open_command opcode) (drawing_of (pen_at p t o) c l m) at out.old }
    ensures opcode { result.command.opcode ≡ opcode }
    ensures most { result.at ≤ at + record_size }
{
    let command = new_command(opcode, p);
    if row.kind == 9 {
        put_mark(ink, 9, opcode, p, pel, out, at);
        return Opened {
            at: at + RECORD_SIZE,
            command,
        };
    }
    Opened { at, command }
}
