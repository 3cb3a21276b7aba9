// Stores whose cells no reading leaves so: counts outside 1 to 30, places past a count, chains that loop.
use crate::calls::{end_case, feed_case, feed_within};
use crate::sessions::{with_body, with_eight, with_first, with_waiting};
use reader::open::open;
use rules::{CAN, Definition, STORE_SIZE, Waiting};
use std::io;

// A budget that ends the reading of a chain that loops.
const BUDGET: u32 = 10;

fn set_cell(store: &mut [u8; STORE_SIZE], cell: u8, next: u8, count: u8) {
    let at = 32 * (cell as usize);
    store[at] = next;
    store[at + 1] = count;
}

// Reads a body from a place of cell 1.
fn read_case(rt: &impl Print, name: &[u8], next: u8, count: u8, place: u8) -> io::Result<()> {
    let mut store = [0u8; STORE_SIZE];
    let session = open(&mut store, BUDGET).session;
    set_cell(&mut store, 1, next, count);
    feed_case(rt, name, with_body(session, 1, place), &mut store, b"")?;
    Ok(())
}

// Reads on from cell 1, which is read, to cell 2.
fn move_case(rt: &impl Print, name: &[u8], count: u8) -> io::Result<()> {
    let mut store = [0u8; STORE_SIZE];
    let session = open(&mut store, BUDGET).session;
    set_cell(&mut store, 1, 2, 1);
    set_cell(&mut store, 2, 0, count);
    let stopped = feed_case(rt, name, with_body(session, 1, 1), &mut store, b"")?;
    end_case(rt, name, stopped, &store)?;
    Ok(())
}

fn end_in_body(rt: &impl Print, name: &[u8], next: u8, count: u8, place: u8) -> io::Result<()> {
    let mut store = [0u8; STORE_SIZE];
    let session = open(&mut store, BUDGET).session;
    set_cell(&mut store, 1, next, count);
    end_case(rt, name, with_body(session, 1, place), &store)?;
    Ok(())
}

pub(crate) fn reading(rt: &impl Print) -> io::Result<()> {
    read_case(rt, b"read-count-0", 2, 0, 0)?;
    read_case(rt, b"read-count-31", 0, 31, 0)?;
    read_case(rt, b"read-count-255", 0, 255, 0)?;
    read_case(rt, b"read-count-below-place", 2, 5, 6)?;
    read_case(rt, b"spent-count-0", 0, 0, 0)?;
    read_case(rt, b"spent-count-below-place", 0, 5, 6)?;
    read_case(rt, b"read-loop", 1, 1, 0)?;
    move_case(rt, b"move-count-0", 0)?;
    move_case(rt, b"move-count-31", 31)?;
    move_case(rt, b"move-count-255", 255)?;
    end_in_body(rt, b"body-left", 0, 5, 0)?;
    end_in_body(rt, b"body-count-31", 0, 31, 0)?;
    end_in_body(rt, b"body-count-0", 0, 0, 0)?;
    end_in_body(rt, b"body-loop", 1, 1, 1)
}

// Reads a CAN in the last of eight bodies. The cell of the others has a count that no step could read.
fn cancel_case(rt: &impl Print, name: &[u8], room: usize) -> io::Result<()> {
    let mut store = [0u8; STORE_SIZE];
    let session = open(&mut store, BUDGET).session;
    set_cell(&mut store, 1, 0, 2);
    store[34] = CAN;
    set_cell(&mut store, 2, 1, 31);
    let left = feed_within(rt, name, with_eight(session, 2, 1), &mut store, b"A", room)?;
    end_case(rt, name, left, &store)?;
    Ok(())
}

// Reads a CAN of the page over eight bodies that have none left.
fn cancel_spent(rt: &impl Print) -> io::Result<()> {
    let mut store = [0u8; STORE_SIZE];
    let session = open(&mut store, BUDGET).session;
    feed_case(
        rt,
        b"cancel-spent",
        with_eight(session, 0, 0),
        &mut store,
        &[CAN],
    )?;
    Ok(())
}

pub(crate) fn cancelling(rt: &impl Print) -> io::Result<()> {
    cancel_case(rt, b"cancel-eight", 120)?;
    cancel_case(rt, b"cancel-full", 119)?;
    cancel_spent(rt)
}

// Frees the body of 2/1, which starts in cell 1 and goes on in cell 2.
fn free_case(rt: &impl Print, name: &[u8], first: u8, count: u8, second: u8) -> io::Result<()> {
    let mut store = [0u8; STORE_SIZE];
    let session = open(&mut store, BUDGET).session;
    set_cell(&mut store, 1, first, count);
    set_cell(&mut store, 2, second, count);
    let stopped = feed_case(rt, name, with_first(session, 1), &mut store, b"\x1b@!")?;
    feed_case(rt, name, stopped, &mut store, b"")?;
    Ok(())
}

pub(crate) fn freeing(rt: &impl Print) -> io::Result<()> {
    free_case(rt, b"free-loop-of-one", 1, 1, 0)?;
    free_case(rt, b"free-loop-of-two", 2, 1, 1)?;
    free_case(rt, b"free-loop-behind", 2, 1, 2)?;
    free_case(rt, b"free-255-cells", 2, 1, 3)?;
    free_case(rt, b"free-count-0", 2, 0, 0)?;
    free_case(rt, b"free-count-31", 2, 31, 0)?;
    free_case(rt, b"free-count-255", 2, 255, 0)
}

// Stores bytes in a definition whose last cell is cell 1.
fn fill_case(rt: &impl Print, name: &[u8], free: u8, count: u8, piece: &[u8]) -> io::Result<()> {
    let mut store = [0u8; STORE_SIZE];
    let session = open(&mut store, BUDGET).session;
    set_cell(&mut store, 0, free, 0);
    set_cell(&mut store, 1, 0, count);
    let definition = Definition { name: 33, last: 1 };
    feed_case(
        rt,
        name,
        with_waiting(session, Waiting::Body(definition)),
        &mut store,
        piece,
    )?;
    feed_case(
        rt,
        name,
        with_waiting(session, Waiting::BodyEscape(definition)),
        &mut store,
        piece,
    )?;
    Ok(())
}

// Defines a body of 64 bytes where the free chain leads from cell 1 to cell 1.
fn free_chain_loop(rt: &impl Print) -> io::Result<()> {
    let mut store = [0u8; STORE_SIZE];
    let session = open(&mut store, u32::MAX).session;
    set_cell(&mut store, 1, 1, 0);
    let definition = Definition { name: 33, last: 0 };
    feed_case(
        rt,
        b"free-chain-loop",
        with_waiting(session, Waiting::Body(definition)),
        &mut store,
        &[b'A'; 64],
    )?;
    Ok(())
}

pub(crate) fn filling(rt: &impl Print) -> io::Result<()> {
    fill_case(rt, b"fill-count-0", 2, 0, b"z")?;
    fill_case(rt, b"fill-count-31", 2, 31, b"z")?;
    fill_case(rt, b"fill-count-255", 2, 255, b"z")?;
    fill_case(rt, b"fill-count-31-none-free", 0, 31, b"z")?;
    fill_case(rt, b"fill-count-30-none-free", 0, 30, b"z")?;
    fill_case(rt, b"fill-own-cell-free", 1, 30, b"z")?;
    fill_case(rt, b"fill-count-31-at-end", 2, 31, b"\x1bE")?;
    free_chain_loop(rt)
}
