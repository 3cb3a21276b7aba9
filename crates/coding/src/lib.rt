// The coding layer: what a byte does by what is waited for. It asks an action of drawing, calls a macro or is refused.
#![tactic(auto)]

pub mod defining;

ghost use Rattle.std.specs.Prelude.{◌≡◌, true, OnErr, IfOk};
ghost use Rattle.rules.specs.Coding.{react};
ghost use Rattle.rules.specs.Ranges.{waiting_fits};
ghost use Rattle.store.specs.Lent.{Sized};
ghost use Rattle.reactions.specs.View.{coding_of, answer_of, AsLent};
ghost use Rattle.coding.specs.SetRead.{element_read, set_read};

use crate::defining::{in_body, in_body_escape, take_name};
use reactions::Reacted;
use reactions::characters::read_from;
use reactions::escapes::{in_designation, in_escape, in_longer};
use reactions::positions::{take_column, take_row};
use rules::{Element, Refusal, Set, Sets, Waiting};
use tables::sets::{set_of, shifted_to};

// The element that a byte is read from: the one a single shift names, else the one in use.
#[tactic(auto, unfolding(crate::specs::SetRead::element_read))]
fn element_read(waiting: Waiting, sets: Sets) -> Element
    ensures { result ≡ element_read waiting sets }
{
    match waiting {
        Waiting::Shifted(shift) => shifted_to(shift),
        _ => sets.used,
    }
}

// The set that a byte is read from where no sequence and no definition waits.
pub fn set_read(waiting: Waiting, sets: Sets) -> Set
    ensures { result ≡ set_read waiting sets }
{
    set_of(element_read(waiting, sets), sets)
}

// A byte that would be read from the set. A definition is stored as it is read.
// Where the byte is refused, calls a name, puts an element in use or designates a set, first cells and store stay as lent.
#[tactic(auto, unfolding(rules::specs::Coding::react, rules::specs::Coding::react_to))]
pub fn react(
    set: Set,
    waiting: Waiting,
    firsts: &mut [u8; 96],
    store: &mut [u8],
    byte: u8,
) -> Result<Reacted, Refusal>
    requires { (Sized store.old) × (waiting_fits waiting ≡ true) }
    ensures reaction { (sets : Sets) → set ≡ set_read waiting sets
        → answer_of sets result firsts.new store.new
        ≡ react (coding_of sets waiting firsts.old) store.old byte }
    ensures kept { IfOk result (λ r. (AsLent r firsts.old firsts.new) × (AsLent r store.old store.new)) }
    ensures refused { OnErr result ((firsts.new ≡ firsts.old) × (store.new ≡ store.old)) }
{
    if 127 < byte {
        return Err(Refusal::ByteOver127);
    }
    match waiting {
        Waiting::Escape => in_escape(byte),
        Waiting::Designator(element) => Ok(in_designation(element, byte)),
        Waiting::Longer => Ok(in_longer(byte)),
        Waiting::Name => take_name(firsts, store, byte),
        Waiting::Body(definition) => in_body(definition, firsts, store, byte),
        Waiting::BodyEscape(definition) => in_body_escape(definition, firsts, store, byte),
        Waiting::Row(positioning) => take_row(positioning, byte),
        Waiting::Column(positioning, row) => take_column(positioning, row, byte),
        Waiting::Nothing | Waiting::Shifted(_) => Ok(read_from(set, byte)),
    }
}
