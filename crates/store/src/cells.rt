// One cell of the store. Only this file knows where the parts of a cell lie.
ghost use Rattle.std.specs.Prelude.{◌≡◌, ◌+◌, ◌*◌, ◌<◌, ◌≤◌, ◌↔◌, IsTrue, length};
ghost use Rattle.rules.specs.Numbers.{most_bytes};
ghost use Rattle.rules.specs.Store.{next_of, set_next, count_of, set_count, good_count, body_byte, set_body_byte};
ghost use Rattle.store.specs.Lent.{Sized};
ghost use Rattle.store.specs.Runs.{Plain, Laid};

use rules::{ESC, MOST_BYTES};

// The bytes of a cell: the next cell, the count, and the body bytes.
const CELL_SIZE: usize = 32;

// The next cell, 0 at the end of a chain. Of cell 0: the front of the free chain.
pub fn next_of(store: &[u8], cell: u8) -> u8
    requires { Sized store.now }
    ensures { result ≡ next_of store.now cell }
{
    store[CELL_SIZE * (cell as usize)]
}

pub fn set_next(store: &mut [u8], cell: u8, next: u8)
    requires { Sized store.old }
    ensures { store.new ≡ set_next store.old cell next }
{
    store[CELL_SIZE * (cell as usize)] = next;
}

// How many body bytes the cell holds.
pub fn count_of(store: &[u8], cell: u8) -> u8
    requires { Sized store.now }
    ensures { result ≡ count_of store.now cell }
{
    store[CELL_SIZE * (cell as usize) + 1]
}

pub fn set_count(store: &mut [u8], cell: u8, count: u8)
    requires { Sized store.old }
    ensures { store.new ≡ set_count store.old cell count }
{
    store[CELL_SIZE * (cell as usize) + 1] = count;
}

// The count of a cell in use: 1 to 30.
pub fn good_count(count: u8) -> bool
    ensures { result ≡ good_count count }
{
    // A `matches!` of the range hides the two tests from the proof.
    1 <= count && count <= MOST_BYTES
}

// Where a body byte lies in the store.
pub(crate) fn place_in_store(cell: u8, place: u8) -> usize
    requires { place ≤ most_bytes }
    ensures { result ≡ 32 * cell + 2 + place }
{
    CELL_SIZE * (cell as usize) + 2 + (place as usize)
}

pub(crate) fn body_byte(store: &[u8], cell: u8, place: u8) -> u8
    requires { (Sized store.now) × (place < most_bytes) }
    ensures { result ≡ body_byte store.now cell place }
{
    store[place_in_store(cell, place)]
}

pub fn set_body_byte(store: &mut [u8], cell: u8, place: u8, byte: u8)
    requires { (Sized store.old) × (place < most_bytes) }
    ensures { store.new ≡ set_body_byte store.old cell place byte }
{
    store[place_in_store(cell, place)] = byte;
}

// Whether a definition stores the byte as it is.
pub fn is_plain(byte: u8) -> bool
    ensures { IsTrue result ↔ Plain byte }
{
    byte <= 127 && byte != ESC
}

// Sets body bytes from a place on, up to an ESC or a byte over 127, and answers how many. The count of the cell stays.
pub fn lay_bytes(store: &mut [u8], cell: u8, place: u8, bytes: &[u8]) -> usize
    requires { (Sized store.old) × (place + length bytes.now ≤ most_bytes) }
    ensures laid { Laid bytes.now 0 cell place store.old result store.new }
    ensures most { result ≤ length bytes.now }
{
    let at = place_in_store(cell, place);
    for (n, byte) in bytes.iter().enumerate() {
        if !is_plain(*byte) {
            return n;
        }
        store[at + n] = *byte;
    }
    bytes.len()
}
