// What no honest caller would lend: stores of other sizes, sessions with a field out of range, stores whose chains loop,
// buffers too small, calls after the end and after a stop. Each case prints the call, its number and its counts.
// The file stdout is worked out from documents 01 and 02 by hand.
#![tactic(auto)]

mod calls;
mod cells;
mod sessions;

use calls::{colour_case, end_case, end_within, feed_case, feed_within, print_open};
use reader::end::end;
use reader::open::open;
use rules::{Definition, Positioning, STORE_SIZE, Session, Waiting};
use sessions::{
    with_addresses, with_command, with_depth, with_last_colour, with_lengths, with_operand,
    with_places, with_steps, with_text, with_waiting,
};
use std::io;

const DOMAIN: u8 = 33;

const TEXT: u8 = 34;

const POINT_SET: u8 = 36;

const SELECT_COLOUR: u8 = 62;

fn fresh() -> Session {
    let mut store = [0u8; STORE_SIZE];
    open(&mut store, u32::MAX).session
}

fn ended() -> Session {
    let mut store = [0u8; STORE_SIZE];
    let session = open(&mut store, u32::MAX).session;
    end(session, &store, &mut [0u8; 120]).session
}

fn feed_stopped(rt: &impl Print, name: &[u8], session: Session) -> io::Result<()> {
    let mut store = [0u8; STORE_SIZE];
    open(&mut store, u32::MAX);
    feed_case(rt, name, session, &mut store, b"A")?;
    Ok(())
}

fn lend(rt: &impl Print, name: &[u8], store: &mut [u8]) -> io::Result<()> {
    feed_case(rt, name, fresh(), store, b"A")?;
    end_case(rt, name, ended(), store)?;
    Ok(())
}

fn store_case(rt: &impl Print, name: &[u8], store: &mut [u8]) -> io::Result<()> {
    let opened = open(store, u32::MAX);
    print_open(rt, name, opened.answer)?;
    feed_stopped(rt, name, opened.session)?;
    lend(rt, name, store)
}

fn stores(rt: &impl Print) -> io::Result<()> {
    let mut one = [0u8; 1];
    store_case(rt, b"store-0", &mut one[..0])?;
    let mut shorter = [0u8; 8191];
    store_case(rt, b"store-8191", &mut shorter)?;
    let mut longer = [0u8; 8193];
    store_case(rt, b"store-8193", &mut longer)
}

fn both(rt: &impl Print, name: &[u8], session: Session) -> io::Result<()> {
    let mut store = [0u8; STORE_SIZE];
    open(&mut store, u32::MAX);
    feed_case(rt, name, session, &mut store, b"A")?;
    end_case(rt, name, session, &store)?;
    Ok(())
}

fn drawing_fields(rt: &impl Print, session: Session) -> io::Result<()> {
    both(rt, b"single-0", with_lengths(session, 0, 3))?;
    both(rt, b"single-5", with_lengths(session, 5, 3))?;
    both(rt, b"multi-0", with_lengths(session, 1, 0))?;
    both(rt, b"multi-9", with_lengths(session, 1, 9))?;
    both(rt, b"foreground-16", with_addresses(session, 16, 0))?;
    both(rt, b"background-16", with_addresses(session, 0, 16))?;
    both(rt, b"vertices-0", with_command(session, 0, 0))?;
    both(rt, b"vertices-412", with_command(session, 0, 412))?;
    both(rt, b"vertices-413", with_command(session, 0, 413))?;
    both(rt, b"opcode-1", with_command(session, 1, 1))?;
    both(rt, b"opcode-31", with_command(session, 31, 1))?;
    both(rt, b"opcode-64", with_command(session, 64, 1))?;
    both(rt, b"operand-3-of-3", with_operand(session, POINT_SET, 3))?;
    both(
        rt,
        b"operand-1-of-1",
        with_operand(session, SELECT_COLOUR, 1),
    )?;
    both(rt, b"operand-2-of-domain", with_operand(session, DOMAIN, 2))?;
    both(rt, b"operand-1-of-text", with_operand(session, TEXT, 1))
}

fn row_case(rt: &impl Print, name: &[u8], session: Session, row: u8) -> io::Result<()> {
    both(
        rt,
        name,
        with_waiting(session, Waiting::Column(Positioning::Aps, row)),
    )
}

fn text_fields(rt: &impl Print, session: Session) -> io::Result<()> {
    both(
        rt,
        b"row-due",
        with_waiting(session, Waiting::Row(Positioning::Nsr)),
    )?;
    row_case(rt, b"row-63", session, 63)?;
    row_case(rt, b"row-64", session, 64)?;
    row_case(rt, b"row-127", session, 127)?;
    row_case(rt, b"row-128", session, 128)?;
    both(rt, b"cursor-below", with_text(session, 0xFFFF_FFFF, 256))?;
    both(rt, b"cursor-beyond", with_text(session, 0x7FFF_FFFF, 257))?;
    both(rt, b"field-greatest", with_text(session, 0, 0x8000_0000))?;
    both(rt, b"field-none", with_text(session, 0, 0))
}

fn name_case(rt: &impl Print, name: &[u8], session: Session, defined: u8) -> io::Result<()> {
    let definition = Definition {
        name: defined,
        last: 0,
    };
    both(rt, name, with_waiting(session, Waiting::Body(definition)))?;
    both(
        rt,
        name,
        with_waiting(session, Waiting::BodyEscape(definition)),
    )
}

fn other_fields(rt: &impl Print, session: Session) -> io::Result<()> {
    both(rt, b"depth-9", with_depth(session, 9))?;
    both(rt, b"place-31", with_places(session, 31, 0))?;
    both(rt, b"unused-place-31", with_places(session, 0, 31))?;
    name_case(rt, b"name-31", session, 31)?;
    name_case(rt, b"name-128", session, 128)
}

fn steps_over_budget(rt: &impl Print, session: Session) -> io::Result<()> {
    let mut store = [0u8; STORE_SIZE];
    open(&mut store, u32::MAX);
    feed_case(
        rt,
        b"steps-over-budget",
        with_steps(session, 6),
        &mut store,
        b"A",
    )?;
    Ok(())
}

fn buffer_case(rt: &impl Print, name: &[u8], session: Session, room: usize) -> io::Result<()> {
    let mut store = [0u8; STORE_SIZE];
    open(&mut store, u32::MAX);
    feed_within(rt, name, session, &mut store, b"A", room)?;
    feed_within(rt, name, session, &mut store, b"", room)?;
    end_within(rt, name, with_operand(session, POINT_SET, 0), &store, room)?;
    end_within(rt, name, session, &store, room)?;
    Ok(())
}

fn buffers(rt: &impl Print, session: Session) -> io::Result<()> {
    buffer_case(rt, b"buffer-0", session, 0)?;
    buffer_case(rt, b"buffer-39", session, 39)?;
    buffer_case(rt, b"buffer-119", session, 119)?;
    buffer_case(rt, b"buffer-120", session, 120)
}

fn after(rt: &impl Print, session: Session) -> io::Result<()> {
    let mut store = [0u8; STORE_SIZE];
    open(&mut store, u32::MAX);
    let ended = end_case(rt, b"page", session, &store)?;
    feed_case(rt, b"after-end", ended, &mut store, b"A")?;
    end_case(rt, b"after-end", ended, &store)?;
    let stopped = feed_case(rt, b"stop", session, &mut store, b"\x00\xff")?;
    feed_case(rt, b"after-stop", stopped, &mut store, b"A")?;
    end_case(rt, b"after-stop", stopped, &store)?;
    Ok(())
}

fn colours(rt: &impl Print, session: Session) -> io::Result<()> {
    let session = with_last_colour(session, 1, 2, 3);
    colour_case(rt, b"15", session, 15)?;
    colour_case(rt, b"16", session, 16)?;
    colour_case(rt, b"255", session, 255)
}

fn main(rt: HostRuntime) -> io::Result<()> {
    let rt = &rt;
    let mut store = [0u8; STORE_SIZE];
    let session = open(&mut store, 5).session;
    stores(rt)?;
    drawing_fields(rt, session)?;
    text_fields(rt, session)?;
    other_fields(rt, session)?;
    steps_over_budget(rt, session)?;
    cells::reading(rt)?;
    cells::cancelling(rt)?;
    cells::freeing(rt)?;
    cells::filling(rt)?;
    buffers(rt, session)?;
    after(rt, session)?;
    colours(rt, session)
}
