// As many steps at once as can be taken.
ghost use Rattle.std.specs.Prelude.{List, ℕ, ◌-◌, ◌≤◌};
ghost use Rattle.steps.specs.View.{NoneSpent};
ghost use Rattle.coded_turns.specs.Walk.{Walk, Stands, reached_at};

use crate::drawn::run_drawn;
use coded_turns::coded::run_coded;
use progress::Reached;
use rules::{Cursor, Text};

// Spent bodies are removed, then bytes that write no record are read, then bytes that are drawn, as many of each as come. A run may stop
// early without saying why, since a turn follows.
pub fn run(
    reached: Reached,
    budget: u32,
    text: &mut Text,
    cursors: &mut [Cursor; 8],
    firsts: &mut [u8; 96],
    store: &mut [u8],
    piece: &[u8],
    out: &mut [u8],
) -> Reached
    requires { (map : List ℕ)
        → Stands piece.now (reached_at budget reached text.old cursors.old firsts.old map store.old out.old) }
    ensures walk { (map : List ℕ)
        → Walk piece.now
        (reached_at budget reached text.old cursors.old firsts.old map
        store.old out.old)
        (reached_at budget result text.new cursors.new firsts.new map
        store.new out.new) }
    ensures most { result.progress.steps - reached.progress.steps ≤ budget - reached.progress.steps }
    ensures spent { result.progress.steps ≤ reached.progress.steps
        → NoneSpent result.progress.depth cursors.new store.new }
{
    let progress = reached.progress;
    let free = out.len() - progress.written;
    let coded = run_coded(progress, budget, free, cursors, firsts, store, piece);
    let coded = Reached {
        progress: coded,
        ..reached
    };
    run_drawn(coded, budget, text, cursors, store, piece, out)
}
