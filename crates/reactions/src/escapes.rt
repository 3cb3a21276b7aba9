// Escape sequences. A control drops the sequence.
ghost use Rattle.std.specs.Prelude.{List, ◌≡◌, ℕ};
ghost use Rattle.rules.specs.declared.Sets.{Sets};
ghost use Rattle.rules.specs.Coding.{escape, designation, class_of, react_to};
ghost use Rattle.reactions.specs.View.{coding_of, reaction_of, answer_of};

use crate::characters::control;
use crate::{Reacted, act, designate_set, use_element, wait_for};
use rules::{Action, Class, Element, Final, Refusal, Set, Waiting};
use tables::controls::class_of;
use tables::escapes::{designated_by, designator_of, final_of};

// The final byte of a two-byte escape sequence.
#[tactic(auto, unfolding(rules::specs::Coding::escape))]
fn escape(last: Final) -> Result<Reacted, Refusal>
    ensures { (s : Sets) (f st : List ℕ) → answer_of s result f st ≡ escape last (coding_of s Waiting.Nothing f) st }
{
    match last {
        Final::Opens => Ok(wait_for(Waiting::Name)),
        Final::Refuses => Err(Refusal::Unsupported),
        Final::UsesG2 => Ok(use_element(Element::G2)),
        Final::UsesG3 => Ok(use_element(Element::G3)),
        Final::Closes => Ok(act(Action::Close)),
        Final::NoMeaning => Ok(wait_for(Waiting::Nothing)),
    }
}

#[tactic(auto, unfolding(rules::specs::Coding::designation))]
fn designation(designated: Option<Set>, element: Element) -> Reacted
    ensures { (s : Sets) (f st : List ℕ)
        → reaction_of s result f st ≡ designation designated element (coding_of s Waiting.Nothing f) st }
{
    match designated {
        None => wait_for(Waiting::Nothing),
        Some(set) => designate_set(element, set),
    }
}

// The byte after ESC.
#[tactic(auto, unfolding(rules::specs::Coding::react_to))]
pub fn in_escape(byte: u8) -> Result<Reacted, Refusal>
    ensures { (s : Sets) (f st : List ℕ)
        → answer_of s result f st ≡ react_to Waiting.Escape (class_of byte) (coding_of s Waiting.Escape f) st byte }
{
    match class_of(byte) {
        Class::Below(k) => Ok(control(k, byte)),
        Class::Column2 => Ok(wait_for(designator_of(byte))),
        Class::Above => escape(final_of(byte)),
    }
}

#[tactic(auto, unfolding(rules::specs::Coding::react_to))]
pub fn in_designation(element: Element, byte: u8) -> Reacted
    ensures { (s : Sets) (f st : List ℕ)
        → reaction_of s result f st
        ≡ react_to (Waiting.Designator element) (class_of byte) (coding_of s (Waiting.Designator element) f) st byte }
{
    match class_of(byte) {
        Class::Below(k) => control(k, byte),
        Class::Column2 => wait_for(Waiting::Longer),
        Class::Above => designation(designated_by(byte), element),
    }
}

// A longer sequence has no meaning; its end is looked for.
#[tactic(auto, unfolding(rules::specs::Coding::react_to))]
pub fn in_longer(byte: u8) -> Reacted
    ensures { (s : Sets) (f st : List ℕ)
        → reaction_of s result f st ≡ react_to Waiting.Longer (class_of byte) (coding_of s Waiting.Longer f) st byte }
{
    match class_of(byte) {
        Class::Below(k) => control(k, byte),
        Class::Column2 => wait_for(Waiting::Longer),
        Class::Above => wait_for(Waiting::Nothing),
    }
}
