// How far a reading has come, and each way in which it goes on.
#![tactic(auto)]

pub mod handing;

ghost use Rattle.std.specs.Prelude.{◌≡◌, ◌+◌, ◌≤◌};
ghost use Rattle.progress.specs.Progress.{place_after, ran_on, drawn_to};

use pens::tips::{Tip, tip_of};
use rules::{Command, Drawing, Look, Sets, Waiting};

// Where a reading stands between two steps. The drawing state and the arrays of the state are lent beside it.
#[derive(Clone, Copy)]
pub struct Progress {
    pub at: usize,
    pub written: usize,
    pub sets: Sets,
    pub waiting: Waiting,
    pub steps: u32,
    pub depth: u8,
}

// The same with the drawing state, but for its map, and with its pen apart from the text.
// The sets, what is waited for and the depth stand in the progress, apart from the first cells and the cursors that are lent, since an
// array in a struct that is handed on is copied.
#[derive(Clone, Copy)]
pub struct Reached {
    pub progress: Progress,
    pub tip: Tip,
    pub command: Command,
    pub look: Look,
}

// The progress after a run of so many drawn bytes, their records written up to a place.
pub fn after_run(progress: Progress, count: usize, written: usize) -> Progress
    requires { (progress.steps + count ≤ 4294967295) × (place_after progress.depth count progress.at ≤ 18446744073709551615) }
    ensures { result ≡ ran_on count written progress }
{
    let next = Progress {
        written,
        steps: progress.steps + (count as u32),
        ..progress
    };
    if progress.depth == 0 {
        return Progress {
            at: progress.at + count,
            ..next
        };
    }
    next
}

// A step is accepted, its action drawn and the records written up to a place.
pub fn after_drawing(next: Progress, written: usize, drawing: &Drawing) -> Reached
    ensures { result ≡ drawn_to written drawing.now next }
{
    Reached {
        progress: Progress { written, ..next },
        tip: tip_of(drawing.pen),
        command: drawing.command,
        look: drawing.look,
    }
}
