// Chains of cells: walking one to its end, and freeing one.
ghost use Rattle.std.specs.Prelude.{◌≡◌, OnErr};
ghost use Rattle.rules.specs.Store.{last_cell, free_body};
ghost use Rattle.store.specs.Lent.{Sized};
ghost use Rattle.store.specs.Freeing.{freeing_of};

use crate::cells::{next_of, set_next};
use rules::Refusal;

// The last cell of a chain; none where the chain is longer than 255 cells.
fn last_cell(store: &[u8], first: u8) -> Option<u8>
    requires { Sized store.now }
    ensures { result ≡ last_cell 255 store.now first }
{
    let mut cell = first;
    for _ in 0..255u8 {
        let next = next_of(store, cell);
        if next == 0 {
            return Some(cell);
        }
        cell = next;
    }
    None
}

// Puts the chain from `first` on at the front of the free chain.
pub fn free_body(store: &mut [u8], first: u8) -> Result<(), Refusal>
    requires { Sized store.old }
    ensures freed { freeing_of result store.new ≡ free_body first store.old }
    ensures refused { OnErr result (store.new ≡ store.old) }
{
    if first == 0 {
        return Ok(());
    }
    let Some(last) = last_cell(store, first) else {
        return Err(Refusal::OutOfRange);
    };
    let free = next_of(store, 0);
    set_next(store, last, free);
    set_next(store, 0, first);
    Ok(())
}
