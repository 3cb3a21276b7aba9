// Setting the cursor by APS or NSR: the control, then a row and a column byte, which are read raw.
ghost use Rattle.std.specs.Prelude.{List, ◌≡◌, ℕ};
ghost use Rattle.rules.specs.Coding.{positioning_action, control, class_of, react_to};
ghost use Rattle.reactions.specs.View.{coding_of, reaction_of, answer_of};

use crate::{Effect, Reacted, act, wait_for};
use rules::{Action, Control, Positioning, Refusal, Sets, Waiting};

fn positioning_action(positioning: Positioning, byte: u8) -> Action
    ensures { result ≡ positioning_action positioning byte }
{
    match positioning {
        Positioning::Aps => Action::Control(byte),
        Positioning::Nsr => Action::Reset(byte),
    }
}

#[tactic(auto, using(crate::proofs::SetLaws::row_due))]
pub(crate) fn position(positioning: Positioning, byte: u8) -> Reacted
    ensures { (s : Sets) (f st : List ℕ)
        → reaction_of s result f st ≡ control (Control.Positions positioning) (coding_of s Waiting.Nothing f) st byte }
{
    Reacted {
        effect: Effect::Acts(positioning_action(positioning, byte)),
        waiting: Waiting::Row(positioning),
    }
}

#[tactic(auto, unfolding(rules::specs::Coding::address_byte, rules::specs::Coding::react_to))]
pub fn take_row(positioning: Positioning, byte: u8) -> Result<Reacted, Refusal>
    ensures { (s : Sets) (f st : List ℕ)
        → answer_of s result f st
        ≡ react_to (Waiting.Row positioning) (class_of byte) (coding_of s (Waiting.Row positioning) f) st byte }
{
    if byte < 64 {
        return Err(Refusal::Unsupported);
    }
    Ok(wait_for(Waiting::Column(positioning, byte)))
}

#[tactic(auto, unfolding(rules::specs::Coding::address_byte, rules::specs::Coding::react_to))]
pub fn take_column(positioning: Positioning, row: u8, byte: u8) -> Result<Reacted, Refusal>
    ensures { (s : Sets) (f st : List ℕ)
        → answer_of s result f st
        ≡ react_to (Waiting.Column positioning row) (class_of byte) (coding_of s (Waiting.Column positioning row) f) st byte }
{
    if byte < 64 {
        return Err(Refusal::Unsupported);
    }
    Ok(act(Action::Position(positioning, row, byte)))
}
