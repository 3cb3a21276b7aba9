// One turn of a reading where spent bodies are removed: the tests in their order, then a step.
#![tactic(auto)]

ghost use Rattle.std.specs.Prelude.{◌≡◌, true, List, ℕ, ◌≤◌, ◌<◌, ◌-◌, length, drop, ltb};
ghost use Rattle.rules.specs.declared.Drawing.{Drawing};
ghost use Rattle.rules.specs.Numbers.{room_for_step};
ghost use Rattle.rules.specs.Turn.{turn};
ghost use Rattle.rules.specs.Reading.{consumed_by};
ghost use Rattle.rules.specs.Ranges.{waiting_fits};
ghost use Rattle.store.specs.Lent.{Sized};
ghost use Rattle.bodies.specs.Stack.{bodies_of};
ghost use Rattle.steps.specs.Leaving.{nothing_left, next_byte, source_at, leaves};
ghost use Rattle.steps.specs.View.{state_at, left_of, NoneSpent, DrawDue, RoomBy};

use bodies::innermost;
use progress::Progress;
use rules::{Answer, Cursor, NOWHERE, ROOM_FOR_STEP, Refusal};
use steps::{Onward, Turned, ends, interpret};

fn nothing_left(depth: u8, piece: &[u8], at: usize) -> bool
    ensures { result ≡ nothing_left depth (drop at piece.now) }
{
    depth == 0 && piece.len() <= at
}

// The byte of the innermost body, and where that is read on, else of the piece; none where a cell has a bad count.
fn next_byte(
    store: &[u8],
    cursors: &[Cursor; 8],
    depth: u8,
    piece: &[u8],
    at: usize,
) -> Option<(u8, Cursor)>
    requires { (Sized store.now) × (depth ≤ 8) × (depth ≡ 0 → at < length piece.now) }
    ensures { result
        ≡ next_byte depth store.now (bodies_of depth cursors.now)
        (drop at piece.now) }
{
    if depth == 0 {
        return Some((piece[at], NOWHERE));
    }
    innermost(store, cursors, depth)
}

// The place of the piece once a byte is read.
fn place_after(depth: u8, at: usize) -> usize
    requires { depth ≡ 0 → at < 18446744073709551615 }
    ensures { result ≡ consumed_by (source_at depth) at }
{
    if depth == 0 { at + 1 } else { at }
}

// One turn, with so many bytes of the output free: the tests come in their order, then the byte is interpreted. What it asks of drawing
// is left to the caller.
pub fn turn(
    progress: Progress,
    budget: u32,
    free: usize,
    cursors: &mut [Cursor; 8],
    firsts: &mut [u8; 96],
    store: &mut [u8],
    piece: &[u8],
) -> Turned
    requires { (Sized store.old) × (progress.depth ≤ 8) × (waiting_fits progress.waiting ≡ true)
        × (progress.at ≤ length piece.now) × NoneSpent progress.depth cursors.old store.old }
    ensures left { (d : Drawing) (out : List ℕ)
        → left_of budget progress result cursors.new firsts.new d store.new out
        ≡ leaves
        (turn (ltb free room_for_step) (budget - progress.steps)
        (state_at budget progress cursors.old firsts.old d store.old)
        (drop progress.at piece.now))
        progress.at progress.written out }
    ensures due { DrawDue progress result }
    ensures room { RoomBy result.course free }
{
    let depth = progress.depth;
    let at = progress.at;
    if nothing_left(depth, piece, at) {
        return ends(progress, Answer::Done);
    }
    if free < ROOM_FOR_STEP {
        return ends(progress, Answer::Full);
    }
    if budget <= progress.steps {
        return ends(progress, Answer::Refused(Refusal::BudgetUsed));
    }
    let Some((byte, cursor)) = next_byte(store, cursors, depth, piece, at) else {
        return ends(progress, Answer::Refused(Refusal::OutOfRange));
    };
    let next = Onward {
        at: place_after(depth, at),
        cursor,
    };
    interpret(progress, next, byte, cursors, firsts, store)
}
