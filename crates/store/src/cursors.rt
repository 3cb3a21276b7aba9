// Reading a running body.
ghost use Rattle.std.specs.Prelude.{◌≡◌, ℕ, ◌+◌, ◌≤◌, ◌<◌, length};
ghost use Rattle.rules.specs.Numbers.{most_bytes};
ghost use Rattle.rules.specs.Bodies.{has_left, read_cell, read_body};
ghost use Rattle.store.specs.Lent.{Sized};
ghost use Rattle.store.specs.Stretch.{Gives};

use crate::cells::{body_byte, count_of, good_count, next_of, place_in_store};
use rules::Cursor;

// The next bytes of a body in the store, as far as they lie in one cell.
#[derive(Clone, Copy)]
pub struct Stretch {
    pub from: usize,
    pub to: usize,
}

pub fn has_left(store: &[u8], cursor: Cursor) -> bool
    requires { Sized store.now }
    ensures { result ≡ has_left store.now cursor }
{
    cursor.cell != 0
        && (cursor.place < count_of(store, cursor.cell) || next_of(store, cursor.cell) != 0)
}

// The byte at the cursor, which is in its cell, and the place after it.
fn read_cell(store: &[u8], cursor: Cursor) -> (u8, Cursor)
    requires { (Sized store.now) × (cursor.place < most_bytes) }
    ensures { Some result ≡ read_cell store.now cursor }
{
    let byte = body_byte(store, cursor.cell, cursor.place);
    let place = cursor.place + 1;
    (byte, Cursor { place, ..cursor })
}

// The next byte of a body that has bytes left, and where the body is read next; none where a cell has a bad count.
pub fn read_body(store: &[u8], cursor: Cursor) -> Option<(u8, Cursor)>
    requires { Sized store.now }
    ensures { result ≡ read_body store.now cursor }
{
    let count = count_of(store, cursor.cell);
    if !good_count(count) || count < cursor.place {
        return None;
    }
    if cursor.place < count {
        return Some(read_cell(store, cursor));
    }
    let cell = next_of(store, cursor.cell);
    if !good_count(count_of(store, cell)) {
        return None;
    }
    Some(read_cell(store, Cursor { cell, place: 0 }))
}

const NO_STRETCH: Stretch = Stretch { from: 0, to: 0 };

// The bytes that a body's cell still holds; none where the cell can't be read.
pub fn stretch_of(store: &[u8], cursor: Cursor) -> Stretch
    requires { Sized store.now }
    ensures gives { (k : ℕ) → result.from + k < result.to → Gives store.now cursor result.from k }
    ensures within { (result.from ≤ result.to) × (result.to ≤ length store.now) }
    ensures place { result.from < result.to → cursor.place + result.to ≤ result.from + most_bytes }
{
    let count = count_of(store, cursor.cell);
    if cursor.cell == 0 || !good_count(count) || count <= cursor.place {
        return NO_STRETCH;
    }
    Stretch {
        from: place_in_store(cursor.cell, cursor.place),
        to: place_in_store(cursor.cell, count),
    }
}
