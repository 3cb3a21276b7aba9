// What a byte does outside macro definitions, by what is waited for: its effect and what is waited for after it, or a refusal. The
// caller holds the sets; first cells and store are lent.
#![tactic(auto)]

pub mod characters;
pub mod escapes;
pub mod positions;

ghost use Rattle.std.specs.Prelude.{List, ◌≡◌, ℕ};
ghost use Rattle.rules.specs.Coding.{Call, React, in_use, designate};
ghost use Rattle.reactions.specs.View.{coding_of, reset_sets, sets_after, reaction_of, AsLent};

use rules::{Action, Element, Set, Sets, Waiting};
use tables::sets::{designate, fresh_sets, in_use};

// The last two say what changes of the sets and ask nothing of drawing. Of the others only the action of NSR changes them.
#[derive(Clone, Copy, PartialEq, Eq)]
pub enum Effect {
    Calls(u8),
    Acts(Action),
    Uses(Element),
    Designates(Element, Set),
}

#[derive(Clone, Copy, PartialEq, Eq)]
pub struct Reacted {
    pub effect: Effect,
    pub waiting: Waiting,
}

// NSR resets the sets too.
fn reset_sets(action: Action, sets: Sets) -> Sets
    ensures { result ≡ reset_sets action sets }
{
    match action {
        Action::Reset(_) => fresh_sets(),
        _ => sets,
    }
}

pub fn sets_after(effect: Effect, sets: Sets) -> Sets
    ensures { result ≡ sets_after effect sets }
{
    match effect {
        Effect::Acts(action) => reset_sets(action, sets),
        Effect::Uses(element) => in_use(element, sets),
        Effect::Designates(element, set) => designate(element, set, sets),
        _ => sets,
    }
}

// Asks nothing of drawing. A definition may have changed first cells and store.
pub fn wait_for(waiting: Waiting) -> Reacted
    ensures reaction { (s : Sets) (f st : List ℕ) → reaction_of s result f st ≡ React (coding_of s waiting f) st Action.Idle }
    ensures kept { (lent left : List ℕ) → AsLent result lent left }
{
    Reacted {
        effect: Effect::Acts(Action::Idle),
        waiting,
    }
}

// Four short makers, told apart by what is left of the coding state: each has a clause by its own rule.
pub(crate) fn act(action: Action) -> Reacted
    ensures { (s : Sets) (f st : List ℕ) → reaction_of s result f st ≡ React (coding_of (reset_sets action s) Waiting.Nothing f) st action }
{
    Reacted {
        effect: Effect::Acts(action),
        waiting: Waiting::Nothing,
    }
}

pub(crate) fn call(name: u8) -> Reacted
    ensures { (s : Sets) (f st : List ℕ) → reaction_of s result f st ≡ Call (coding_of s Waiting.Nothing f) name }
{
    Reacted {
        effect: Effect::Calls(name),
        waiting: Waiting::Nothing,
    }
}

pub(crate) fn use_element(element: Element) -> Reacted
    ensures { (s : Sets) (f st : List ℕ)
        → reaction_of s result f st ≡ React (coding_of (in_use element s) Waiting.Nothing f) st Action.Idle }
{
    Reacted {
        effect: Effect::Uses(element),
        waiting: Waiting::Nothing,
    }
}

pub(crate) fn designate_set(element: Element, set: Set) -> Reacted
    ensures { (s : Sets) (f st : List ℕ)
        → reaction_of s result f st ≡ React (coding_of (designate element set s) Waiting.Nothing f) st Action.Idle }
{
    Reacted {
        effect: Effect::Designates(element, set),
        waiting: Waiting::Nothing,
    }
}
