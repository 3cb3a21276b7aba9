// Runs of a definition's bytes: ESC 4/0 that opens it, its body, ESC 4/5 that ends it.
ghost use Rattle.std.specs.Prelude.{length, get_or, true, List, ◌≡◌, ℕ, ◌≤◌, ◌↔◌, IsTrue};
ghost use Rattle.rules.specs.Numbers.{esc};
ghost use Rattle.rules.specs.Ranges.{waiting_fits};
ghost use Rattle.store.specs.Lent.{Sized, IsName};
ghost use Rattle.coding_runs.specs.Idle.{Idle, coded};
ghost use Rattle.reactions.specs.View.{coding_of};

use definitions::filling::{Filled, fill};
use rules::{Definition, ESC, Sets, Waiting};

// After ESC, 4/0 opens a definition and 4/5 ends one.
const OPENS: u8 = 64;

const ENDS: u8 = 69;

// How many bytes were read, and what is waited for after them.
#[derive(Clone, Copy)]
pub struct Defined {
    pub count: usize,
    pub waiting: Waiting,
}

// Whether the bytes begin with ESC and the given one.
fn escape_then(bytes: &[u8], last: u8) -> bool
    ensures { IsTrue result
        ↔ (2 ≤ length bytes.now) × (get_or bytes.now 0 0 ≡ esc) × (get_or bytes.now 1 0 ≡ last) }
{
    2 <= bytes.len() && bytes[0] == ESC && bytes[1] == last
}

fn run_opening(bytes: &[u8]) -> Defined
    ensures ran { (s : Sets) (f st : List ℕ)
        → Idle bytes.now 0 (coded (coding_of s Waiting.Nothing f) st) result.count
        (coded (coding_of s result.waiting f) st) }
    ensures most { result.count ≤ length bytes.now }
{
    if escape_then(bytes, OPENS) {
        return Defined {
            count: 2,
            waiting: Waiting::Name,
        };
    }
    Defined {
        count: 0,
        waiting: Waiting::Nothing,
    }
}

fn run_body(
    definition: Definition,
    firsts: &mut [u8; 96],
    store: &mut [u8],
    bytes: &[u8],
) -> Defined
    requires { (Sized store.old) × (IsName definition.name) }
    ensures ran { (s : Sets)
        → Idle bytes.now 0
        (coded (coding_of s (Waiting.Body definition) firsts.old) store.old) result.count
        (coded (coding_of s result.waiting firsts.new) store.new) }
    ensures most { result.count ≤ length bytes.now }
{
    let Filled { count, last } = fill(store, firsts, definition, bytes);
    if escape_then(&bytes[count..], ENDS) {
        return Defined {
            count: count + 2,
            waiting: Waiting::Nothing,
        };
    }
    let waiting = Waiting::Body(Definition { last, ..definition });
    Defined { count, waiting }
}

// Reads bytes that open, fill or end a definition. It may stop anywhere.
pub(crate) fn run_definition(
    waiting: Waiting,
    firsts: &mut [u8; 96],
    store: &mut [u8],
    bytes: &[u8],
) -> Defined
    requires { (Sized store.old) × (waiting_fits waiting ≡ true) }
    ensures ran { (s : Sets)
        → Idle bytes.now 0 (coded (coding_of s waiting firsts.old) store.old)
        result.count (coded (coding_of s result.waiting firsts.new) store.new) }
    ensures most { result.count ≤ length bytes.now }
{
    match waiting {
        Waiting::Nothing => run_opening(bytes),
        Waiting::Body(definition) => run_body(definition, firsts, store, bytes),
        _ => Defined { count: 0, waiting },
    }
}
