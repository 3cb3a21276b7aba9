// ESC and another byte of the open definition: both are stored, or neither.
ghost use Rattle.std.specs.Prelude.{◌≡◌, OnErr};
ghost use Rattle.rules.specs.Store.{store_escape_and};
ghost use Rattle.store.specs.Lent.{Sized, IsName};
ghost use Rattle.definitions.specs.Storing.{filling_of, storing_of};
ghost use Rattle.definitions.specs.Room.{free_cell, room_for_two};

use crate::appending::store_byte;
use rules::{Definition, ESC, MOST_BYTES, Refusal};
use store::cells::{count_of, good_count, next_of};

fn free_cell(store: &[u8]) -> Result<(), Refusal>
    requires { Sized store.now }
    ensures { result ≡ free_cell store.now }
{
    if next_of(store, 0) == 0 {
        return Err(Refusal::StoreFull);
    }
    Ok(())
}

// Whether both bytes can be stored, tested before the first is. One new cell is enough for both, or for the second.
fn room_for_two(store: &[u8], last: u8) -> Result<(), Refusal>
    requires { Sized store.now }
    ensures { result ≡ room_for_two store.now last }
{
    if last == 0 {
        return free_cell(store);
    }
    let count = count_of(store, last);
    if !good_count(count) {
        return Err(Refusal::OutOfRange);
    }
    if count < MOST_BYTES - 1 {
        return Ok(());
    }
    free_cell(store)
}

pub fn store_escape_and(
    store: &mut [u8],
    firsts: &mut [u8; 96],
    definition: Definition,
    byte: u8,
) -> Result<Definition, Refusal>
    requires { (Sized store.old) × (IsName definition.name) }
    ensures stored { storing_of result firsts.new store.new
        ≡ store_escape_and (filling_of definition firsts.old store.old) byte }
    ensures refused { OnErr result ((firsts.new ≡ firsts.old) × (store.new ≡ store.old)) }
{
    room_for_two(store, definition.last)?;
    let longer = store_byte(store, firsts, definition, ESC)?;
    store_byte(store, firsts, longer, byte)
}
