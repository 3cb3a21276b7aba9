// Runs of a reading over bytes of the piece that write no record, and what every run asks: how far it may go, and the set that is read from.
#![tactic(auto)]

pub mod coded;

ghost use Rattle.std.specs.Prelude.{◌≡◌, true, ◌+◌, ◌-◌, ◌≤◌};
ghost use Rattle.rules.specs.Coding.{set_of};

use progress::Progress;
use rules::{Class, Control, Set, Waiting};
use tables::controls::class_of;
use tables::sets::set_of;

// How far a run may go: to the end of its bytes, as far as the budget lasts.
pub fn reach(from: usize, end: usize, budget: u32, steps: u32) -> usize
    requires { from ≤ end }
    ensures { (from ≤ result) × (result ≤ end) × (result - from ≤ budget - steps) × (steps + (result - from) ≤ 4294967295) }
{
    if budget <= steps {
        return from;
    }
    let left = (budget - steps) as usize;
    if end - from <= left {
        return end;
    }
    from + left
}

pub fn awaits_nothing(waiting: Waiting) -> bool
    ensures { result ≡ true → waiting ≡ Waiting.Nothing }
{
    matches!(waiting, Waiting::Nothing)
}

// Whether a byte is a control that has a record and waits for no other byte.
pub fn is_marked(byte: u8) -> bool {
    matches!(
        class_of(byte),
        Class::Below(Control::Recorded | Control::Cancels | Control::Formats(_))
    )
}

// The set that bytes are read from where nothing is waited for.
pub fn set_in_use(progress: Progress) -> Set
    ensures { result ≡ set_of progress.sets.used progress.sets }
{
    set_of(progress.sets.used, progress.sets)
}
