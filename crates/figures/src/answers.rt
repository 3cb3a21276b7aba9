// What functions of the drawing layer do last: a record is put, and the drawing point moved. They are lent the output and a place
// in it and answer the place after their records: the output is the caller's memory, and there is no heap for one of their own.
ghost use Rattle.std.specs.Prelude.{◌≡◌, [], ◌∷◌, ◌+◌, ◌≤◌, length};
ghost use Rattle.rules.specs.Numbers.{record_size};
ghost use Rattle.figures.specs.Carried.{Puts};
ghost use Rattle.figures.specs.Tracing.{moved_if};

use records::put_record;
use rules::{Pen, Point, RECORD_SIZE, Record};
use text::cursor::follow;

// The drawing point moved, if it was.
pub fn move_if(moved: bool, pen: &mut Pen, point: Point)
    ensures { pen.new ≡ moved_if moved point pen.old }
{
    if moved {
        *pen = follow(*pen, point);
    }
}

// Writes a record, and answers the place after it.
pub fn put_one(written: Record, out: &mut [u8], at: usize) -> usize
    requires { at + record_size ≤ length out.old }
    ensures { Puts (written ∷ []) at out.old result out.new }
{
    put_record(out, at, written);
    at + RECORD_SIZE
}
