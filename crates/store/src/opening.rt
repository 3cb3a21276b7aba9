// The store as a page finds it.
ghost use Rattle.std.specs.Prelude.{◌≡◌, replicate};
ghost use Rattle.rules.specs.Numbers.{store_size};
ghost use Rattle.rules.specs.Store.{fresh_store};
ghost use Rattle.store.specs.Lent.{Sized};

use crate::cells::set_next;

// Byte 0 of each cell but the last becomes the number of the cell after it.
fn link(store: &mut [u8])
    requires { store.old ≡ replicate store_size 0 }
    ensures { store.new ≡ fresh_store }
{
    for cell in 0..255u8 {
        set_next(store, cell, cell + 1);
    }
}

// Links the cells 1 to 255 in rising order as the free chain and clears every other byte.
pub fn initialise(store: &mut [u8])
    requires { Sized store.old }
    ensures { store.new ≡ fresh_store }
{
    store.fill(0);
    link(store);
}
