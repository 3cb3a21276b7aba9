// Runs of idle bytes: those that ask nothing of drawing and call no macro, many in one call.
#![tactic(auto)]

pub mod defining;

ghost use Rattle.std.specs.Prelude.{length, true, ◌≡◌, ◌≤◌};
ghost use Rattle.rules.specs.Ranges.{waiting_fits};
ghost use Rattle.store.specs.Lent.{Sized};
ghost use Rattle.coding_runs.specs.Idle.{Idle, coded, idle_effect};
ghost use Rattle.reactions.specs.View.{coding_of};

use crate::defining::run_definition;
use coding::{react, set_read};
use reactions::{Effect, sets_after};
use rules::{Action, Sets, Waiting};

// How many bytes were read, and the state after them. First cells and store are lent beside.
#[derive(Clone, Copy)]
pub struct Idled {
    pub count: usize,
    pub sets: Sets,
    pub waiting: Waiting,
}

#[tactic(auto, unfolding(crate::specs::Idle::idle_effect, crate::specs::Idle::idle_action))]
fn is_idle(effect: Effect) -> bool
    ensures { result ≡ idle_effect effect }
{
    matches!(
        effect,
        Effect::Acts(Action::Idle) | Effect::Uses(_) | Effect::Designates(_, _)
    )
}

// Whether the byte is read by itself from a set: nothing is waited for, and it is no control. Such a byte is seldom idle.
fn is_graphic(waiting: Waiting, byte: u8) -> bool {
    32 <= byte && matches!(waiting, Waiting::Nothing | Waiting::Shifted(_))
}

// Reads idle bytes, up to one that is not. It may stop earlier.
pub fn run_idle(
    sets: Sets,
    waiting: Waiting,
    firsts: &mut [u8; 96],
    store: &mut [u8],
    bytes: &[u8],
) -> Idled
    requires { (Sized store.old) × (waiting_fits waiting ≡ true) }
    ensures ran { Idle bytes.now 0 (coded (coding_of sets waiting firsts.old) store.old)
        result.count (coded (coding_of result.sets result.waiting firsts.new) store.new) }
    ensures most { result.count ≤ length bytes.now }
{
    let mut sets = sets;
    let mut waiting = waiting;
    let mut count = 0;
    // By stretches of a definition and single bytes, so no `for` goes over them.
    loop {
        let defined = run_definition(waiting, firsts, store, &bytes[count..]);
        if 0 < defined.count {
            count += defined.count;
            waiting = defined.waiting;
            continue;
        }
        if count == bytes.len() || is_graphic(waiting, bytes[count]) {
            return Idled {
                count,
                sets,
                waiting,
            };
        }
        let set = set_read(waiting, sets);
        let Ok(reacted) = react(set, waiting, firsts, store, bytes[count]) else {
            return Idled {
                count,
                sets,
                waiting,
            };
        };
        if !is_idle(reacted.effect) {
            return Idled {
                count,
                sets,
                waiting,
            };
        }
        sets = sets_after(reacted.effect, sets);
        waiting = reacted.waiting;
        count += 1;
    }
}
