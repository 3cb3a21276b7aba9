// Runs of POINT SET and LINE to points of three bytes in two dimensions.
ghost use Rattle.std.specs.Prelude.{◌≡◌, true, false, ℕ, ◌+◌, ◌≤◌, length};
ghost use Rattle.rules.specs.declared.Pattern.{Pattern};
ghost use Rattle.rules.specs.declared.Text.{Text};
ghost use Rattle.rules.specs.Drawing.{row, row_of};
ghost use Rattle.figures.specs.Tracing.{pen_at};
ghost use Rattle.drawing_runs.specs.Strokes.{StrokeDue, Moves, Lines, PassesTo};

use crate::{LINE, POINT_SET, Taken, most_steps};
use operands::whole::{are_data, has_three, point_of_three, three_bytes};
use pens::tips::Tip;
use records::{Head, head_of, put_words};
use rules::{Command, Due, Look, ORIGIN, Operand, Point, RECORD_SIZE, ROOM_FOR_STEP};

// Whether many points of the opcode have a loop of their own.
pub fn is_stroke(opcode: u8) -> bool {
    opcode == POINT_SET || opcode == LINE
}

// How many bytes were taken, the place after their records, and the last point: more than Taken has, and no command, as Ran has.
#[derive(Clone, Copy)]
pub struct Lined {
    pub count: usize,
    pub at: usize,
    pub point: Point,
}

// Points of POINT SET, which have no record. The last is left.
fn moves(point: Point, bytes: &[u8]) -> Taken<Point>
    ensures ran { Moves bytes.now 0 result.count result.left }
    ensures most { result.count ≤ length bytes.now }
{
    let mut point = point;
    let mut rest = bytes;
    while let [_, _, _, more @ ..] = rest {
        let w = three_bytes(rest, 0);
        if !are_data(w) {
            break;
        }
        point = point_of_three(w);
        rest = more;
    }
    Taken {
        count: bytes.len() - rest.len(),
        left: point,
    }
}

fn lines(point: Point, head: Head, pel: Point, bytes: &[u8], out: &mut [u8], at: usize) -> Lined
    requires { at ≤ length out.old }
    ensures ran { Lines bytes.now 0 head pel point at out.old result.count result.point result.at
        out.new }
    ensures most { result.count ≤ length bytes.now }
{
    let most = most_steps(bytes.len() / 3, out.len() - at);
    let mut point = point;
    for n in 0..most {
        let w = three_bytes(bytes, 3 * n);
        let place = at + RECORD_SIZE * n;
        if !are_data(w) {
            return Lined {
                count: 3 * n,
                at: place,
                point,
            };
        }
        let q = point_of_three(w);
        put_words(out, place, head, point, q, ORIGIN, pel);
        point = q;
    }
    Lined {
        count: 3 * most,
        at: at + RECORD_SIZE * most,
        point,
    }
}

// Whether the first operand is due, none of it begun, and points have three bytes in two dimensions.
fn is_ready(operand: Operand, command: Command, look: Look) -> bool
    ensures { result ≡ true → (kind : ℕ) → row_of command.opcode ≡ row Pattern.A kind false → (p : Point) (t : Text)
        → StrokeDue kind (pen_at p t operand) command look }
{
    operand.count == 0
        && command.due == Due::First
        && has_three(look.domain.multi as usize, look.domain.three)
}

// As many bytes as are whole points of POINT SET or LINE, absolute. The command stays as it is.
pub fn draw_strokes(
    tip: Tip,
    command: Command,
    look: Look,
    bytes: &[u8],
    out: &mut [u8],
    at: usize,
) -> Lined
    requires { at ≤ length out.old }
    ensures ran { PassesTo bytes.now 0 tip.point tip.operand command look at out.old
        (record { count = result.count; at = result.at; left = record { moved = true; point = result.point }; command = command }) out.new }
    ensures most { result.count ≤ length bytes.now }
{
    let point = tip.point;
    if ROOM_FOR_STEP <= out.len() - at && is_ready(tip.operand, command, look) {
        if command.opcode == POINT_SET {
            let moved = moves(point, bytes);
            return Lined {
                count: moved.count,
                at,
                point: moved.left,
            };
        }
        if command.opcode == LINE {
            let head = head_of(look, 2, 0, 0, 0);
            return lines(point, head, look.domain.pel, bytes, out, at);
        }
    }
    Lined {
        count: 0,
        at,
        point,
    }
}
