// A byte that is read by itself: a control, or one of a set: a character, an opcode or its data, a macro name.
ghost use Rattle.std.specs.Prelude.{List, ◌≡◌, ℕ};
ghost use Rattle.rules.specs.Coding.{control, graphic, class_of};
ghost use Rattle.reactions.specs.View.{coding_of, reaction_of, read_from};

use crate::positions::position;
use crate::{Reacted, act, call, use_element, wait_for};
use rules::{Action, Class, Control, Set, Sets, Waiting};
use tables::controls::class_of;
use tables::sets::character;

#[tactic(auto, unfolding(rules::specs::Coding::control))]
pub(crate) fn control(k: Control, byte: u8) -> Reacted
    ensures { (s : Sets) (f st : List ℕ) → reaction_of s result f st ≡ control k (coding_of s Waiting.Nothing f) st byte }
{
    match k {
        Control::Ignored => wait_for(Waiting::Nothing),
        Control::Locks(element) => use_element(element),
        Control::Shifts(shift) => wait_for(Waiting::Shifted(shift)),
        Control::Escapes => wait_for(Waiting::Escape),
        Control::Recorded => act(Action::Control(byte)),
        Control::Cancels => act(Action::Cancel(byte)),
        Control::Formats(effector) => act(Action::Format(effector, byte)),
        Control::Positions(positioning) => position(positioning, byte),
    }
}

// A byte of the PDI set.
#[tactic(auto, unfolding(rules::specs::Coding::graphic))]
fn pdi(byte: u8) -> Reacted
    ensures { (s : Sets) (f st : List ℕ) → reaction_of s result f st ≡ graphic Set.Pdi (coding_of s Waiting.Nothing f) st byte }
{
    if byte < 64 {
        return act(Action::Opcode(byte));
    }
    act(Action::Data(byte))
}

#[tactic(auto, unfolding(rules::specs::Coding::graphic))]
fn graphic(set: Set, byte: u8) -> Reacted
    ensures { (s : Sets) (f st : List ℕ) → reaction_of s result f st ≡ graphic set (coding_of s Waiting.Nothing f) st byte }
{
    match set {
        Set::Characters(repertoire) => act(character(repertoire, byte)),
        Set::Pdi => pdi(byte),
        Set::Macro => call(byte),
    }
}

// A byte read by itself: a control, or one of the set. A control drops the single shift.
#[tactic(auto, unfolding(crate::specs::View::read_from))]
pub fn read_from(set: Set, byte: u8) -> Reacted
    ensures { (s : Sets) (w : Waiting) (f st : List ℕ)
        → reaction_of s result f st ≡ read_from set (class_of byte) (coding_of s w f) st byte }
{
    match class_of(byte) {
        Class::Below(k) => control(k, byte),
        Class::Column2 | Class::Above => graphic(set, byte),
    }
}
