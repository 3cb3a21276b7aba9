// Runs: many bytes of one set at once, each a step of its own.
#![tactic(auto)]

pub mod strokes;

ghost use Rattle.std.specs.Prelude.{ℕ, ◌+◌, ◌*◌, ◌<◌, ◌≤◌};
ghost use Rattle.rules.specs.Numbers.{room_for_step};

use rules::{Command, Point, RECORD_SIZE, ROOM_FOR_STEP};

// Opcodes whose operands have a loop of their own.
pub const TEXT: u8 = 34;

pub const POINT_SET: u8 = 36;

pub const LINE: u8 = 40;

// How many bytes were taken, and what they left.
#[derive(Clone, Copy)]
pub struct Taken<T> {
    pub count: usize,
    pub left: T,
}

// How many bytes a run took, the place after their records, and what they left: the pen or a part of it, and the command.
#[derive(Clone, Copy)]
pub struct Ran<T> {
    pub count: usize,
    pub at: usize,
    pub left: T,
    pub command: Command,
}

// What a run that looks at no text leaves of the pen. The point stands where it was not moved too: the next byte is acted on at it.
#[derive(Clone, Copy)]
pub struct Moved {
    pub moved: bool,
    pub point: Point,
}

// How many steps of one record each can be taken before what is left ends, or the room for a step.
pub fn most_steps(left: usize, room: usize) -> usize
    ensures { (result ≤ left) × ((n : ℕ) → n < result → 40 * n + room_for_step ≤ room) }
{
    if room < ROOM_FOR_STEP {
        return 0;
    }
    left.min((room - 80) / RECORD_SIZE)
}
