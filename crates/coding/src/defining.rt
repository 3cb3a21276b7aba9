// A byte of a macro definition: its name, then the bytes that are stored.
ghost use Rattle.std.specs.Prelude.{eqb, ◌≡◌, ◌≤◌, OnErr, IfOk};
ghost use Rattle.rules.specs.Numbers.{esc};
ghost use Rattle.rules.specs.declared.Sets.{Sets};
ghost use Rattle.rules.specs.Coding.{open_body, in_body, inner_of, in_body_escape, class_of, react_to};
ghost use Rattle.store.specs.Lent.{Sized, IsName};
ghost use Rattle.reactions.specs.View.{coding_of, answer_of, AsLent};

use definitions::appending::store_byte;
use definitions::escapes::store_escape_and;
use reactions::{Reacted, wait_for};
use rules::{Definition, ESC, Inner, Refusal, Waiting};
use store::chains::free_body;
use store::names::{first_of, set_first};
use tables::escapes::inner_of;

// Frees the old body of the name.
#[tactic(auto, unfolding(rules::specs::Coding::open_body, rules::specs::Coding::named))]
fn open_body(firsts: &mut [u8; 96], store: &mut [u8], name: u8) -> Result<Reacted, Refusal>
    requires { (Sized store.old) × (IsName name) }
    ensures reaction { (s : Sets)
        → answer_of s result firsts.new store.new
        ≡ open_body name (coding_of s Waiting.Name firsts.old) store.old }
    ensures kept { IfOk result (λ r. (AsLent r firsts.old firsts.new) × (AsLent r store.old store.new)) }
    ensures refused { OnErr result ((firsts.new ≡ firsts.old) × (store.new ≡ store.old)) }
{
    free_body(store, first_of(firsts, name))?;
    set_first(firsts, name, 0);
    Ok(wait_for(Waiting::Body(Definition { name, last: 0 })))
}

#[tactic(auto, using(crate::proofs::DefinitionLaws::name_below, crate::proofs::DefinitionLaws::name_above))]
pub(crate) fn take_name(
    firsts: &mut [u8; 96],
    store: &mut [u8],
    byte: u8,
) -> Result<Reacted, Refusal>
    requires { (Sized store.old) × (byte ≤ 127) }
    ensures reaction { (s : Sets)
        → answer_of s result firsts.new store.new
        ≡ react_to Waiting.Name (class_of byte) (coding_of s Waiting.Name firsts.old) store.old byte }
    ensures kept { IfOk result (λ r. (AsLent r firsts.old firsts.new) × (AsLent r store.old store.new)) }
    ensures refused { OnErr result ((firsts.new ≡ firsts.old) × (store.new ≡ store.old)) }
{
    if byte < 32 {
        return Err(Refusal::NameBelow);
    }
    open_body(firsts, store, byte)
}

#[tactic(auto, unfolding(rules::specs::Coding::in_body, rules::specs::Coding::keep))]
pub(crate) fn in_body(
    definition: Definition,
    firsts: &mut [u8; 96],
    store: &mut [u8],
    byte: u8,
) -> Result<Reacted, Refusal>
    requires { (Sized store.old) × (IsName definition.name) }
    ensures reaction { (s : Sets)
        → answer_of s result firsts.new store.new
        ≡ in_body (eqb byte esc) definition (coding_of s (Waiting.Body definition) firsts.old)
        store.old byte }
    ensures kept { IfOk result (λ r. (AsLent r firsts.old firsts.new) × (AsLent r store.old store.new)) }
    ensures refused { OnErr result ((firsts.new ≡ firsts.old) × (store.new ≡ store.old)) }
{
    if byte == ESC {
        return Ok(wait_for(Waiting::BodyEscape(definition)));
    }
    let longer = store_byte(store, firsts, definition, byte)?;
    Ok(wait_for(Waiting::Body(longer)))
}

// The byte after an ESC in a definition.
#[tactic(auto, unfolding(rules::specs::Coding::in_body_escape, rules::specs::Coding::keep))]
pub(crate) fn in_body_escape(
    definition: Definition,
    firsts: &mut [u8; 96],
    store: &mut [u8],
    byte: u8,
) -> Result<Reacted, Refusal>
    requires { (Sized store.old) × (IsName definition.name) }
    ensures reaction { (s : Sets)
        → answer_of s result firsts.new store.new
        ≡ in_body_escape (inner_of byte) definition (coding_of s (Waiting.BodyEscape definition) firsts.old)
        store.old byte }
    ensures kept { IfOk result (λ r. (AsLent r firsts.old firsts.new) × (AsLent r store.old store.new)) }
    ensures refused { OnErr result ((firsts.new ≡ firsts.old) × (store.new ≡ store.old)) }
{
    match inner_of(byte) {
        Inner::OpensNext => Ok(wait_for(Waiting::Name)),
        Inner::Bars => Err(Refusal::Unsupported),
        Inner::EndsBody => Ok(wait_for(Waiting::Nothing)),
        Inner::StartsAfresh => {
            let longer = store_byte(store, firsts, definition, ESC)?;
            Ok(wait_for(Waiting::BodyEscape(longer)))
        }
        Inner::StoresBoth => {
            let longer = store_escape_and(store, firsts, definition, byte)?;
            Ok(wait_for(Waiting::Body(longer)))
        }
    }
}
