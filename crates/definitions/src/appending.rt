// The open definition: a byte is stored at the end of its chain.
ghost use Rattle.std.specs.Prelude.{eqb, ◌≡◌, OnErr};
ghost use Rattle.rules.specs.Store.{next_of, take_cell, link_cell, store_in_new, store_byte};
ghost use Rattle.store.specs.Lent.{Sized, IsName};
ghost use Rattle.definitions.specs.Storing.{filling_of, storing_of};

use rules::{Definition, MOST_BYTES, Refusal};
use store::cells::{count_of, good_count, next_of, set_body_byte, set_count, set_next};
use store::names::set_first;

// Takes the cell, the front of the free chain, for one byte.
fn take_cell(store: &mut [u8], cell: u8)
    requires { Sized store.old }
    ensures { store.new ≡ take_cell cell store.old }
{
    let rest = next_of(store, cell);
    set_next(store, 0, rest);
    set_next(store, cell, 0);
    set_count(store, cell, 1);
}

// Makes the cell the last of the definition's chain.
fn link_cell(
    store: &mut [u8],
    firsts: &mut [u8; 96],
    definition: Definition,
    cell: u8,
) -> Definition
    requires { (Sized store.old) × (IsName definition.name) }
    ensures { filling_of result firsts.new store.new
        ≡ link_cell (eqb definition.last 0) cell (filling_of definition firsts.old store.old) }
{
    if definition.last == 0 {
        set_first(firsts, definition.name, cell);
    } else {
        set_next(store, definition.last, cell);
    }
    Definition {
        last: cell,
        ..definition
    }
}

// Stores the byte as the first of a new cell.
fn store_in_new(
    store: &mut [u8],
    firsts: &mut [u8; 96],
    definition: Definition,
    byte: u8,
) -> Result<Definition, Refusal>
    requires { (Sized store.old) × (IsName definition.name) }
    ensures stored { storing_of result firsts.new store.new
        ≡ store_in_new (next_of store.old 0) (filling_of definition firsts.old store.old)
        byte }
    ensures refused { OnErr result ((firsts.new ≡ firsts.old) × (store.new ≡ store.old)) }
{
    let cell = next_of(store, 0);
    if cell == 0 {
        return Err(Refusal::StoreFull);
    }
    take_cell(store, cell);
    let longer = link_cell(store, firsts, definition, cell);
    set_body_byte(store, cell, 0, byte);
    Ok(longer)
}

// Stores a byte of the definition.
pub fn store_byte(
    store: &mut [u8],
    firsts: &mut [u8; 96],
    definition: Definition,
    byte: u8,
) -> Result<Definition, Refusal>
    requires { (Sized store.old) × (IsName definition.name) }
    ensures stored { storing_of result firsts.new store.new
        ≡ store_byte (filling_of definition firsts.old store.old) byte }
    ensures refused { OnErr result ((firsts.new ≡ firsts.old) × (store.new ≡ store.old)) }
{
    if definition.last == 0 {
        return store_in_new(store, firsts, definition, byte);
    }
    let count = count_of(store, definition.last);
    if !good_count(count) {
        return Err(Refusal::OutOfRange);
    }
    if count < MOST_BYTES {
        set_body_byte(store, definition.last, count, byte);
        set_count(store, definition.last, count + 1);
        return Ok(definition);
    }
    store_in_new(store, firsts, definition, byte)
}
