// Runs of bytes of the open definition.
ghost use Rattle.std.specs.Prelude.{length, List, ℕ, ◌≤◌};
ghost use Rattle.store.specs.Lent.{Sized, IsName};
ghost use Rattle.store.specs.Runs.{Stores};
ghost use Rattle.definitions.specs.Storing.{filling_of};

use crate::appending::store_byte;
use rules::{Definition, MOST_BYTES};
use store::cells::{count_of, good_count, is_plain, lay_bytes, set_count};

// How many bytes were stored, and the last cell after them.
#[derive(Clone, Copy)]
pub struct Filled {
    pub count: usize,
    pub last: u8,
}

// Stores the first of the bytes of a definition whose last cell is given, up to an ESC, a byte over 127 or the end of the cell, and
// answers how many.
fn store_run(store: &mut [u8], last: u8, bytes: &[u8]) -> usize
    requires { Sized store.old }
    ensures stored { (name : ℕ) (firsts : List ℕ)
        → Stores bytes.now 0 (filling_of (record { name = name; last = last }) firsts store.old)
        result (filling_of (record { name = name; last = last }) firsts store.new) }
    ensures most { result ≤ length bytes.now }
{
    let count = count_of(store, last);
    if last == 0 || !good_count(count) {
        return 0;
    }
    let most = bytes.len().min((MOST_BYTES - count) as usize);
    let n = lay_bytes(store, last, count, &bytes[..most]);
    set_count(store, last, count + (n as u8));
    n
}

// Stores the bytes of a definition, up to an ESC, a byte over 127 or one that can't be stored.
pub fn fill(store: &mut [u8], firsts: &mut [u8; 96], definition: Definition, bytes: &[u8]) -> Filled
    requires { (Sized store.old) × (IsName definition.name) }
    ensures stored { Stores bytes.now 0 (filling_of definition firsts.old store.old) result.count
        (filling_of (record { name = definition.name; last = result.last }) firsts.new store.new) }
    ensures most { result.count ≤ length bytes.now }
{
    let name = definition.name;
    let mut last = definition.last;
    let mut count = 0;
    // By stretches, each as long as its cell has room, so no `for` goes over them.
    loop {
        count += store_run(store, last, &bytes[count..]);
        if count == bytes.len() || !is_plain(bytes[count]) {
            return Filled { count, last };
        }
        let Ok(longer) = store_byte(store, firsts, Definition { name, last }, bytes[count]) else {
            return Filled { count, last };
        };
        last = longer.last;
        count += 1;
    }
}
