// Calls whose answers are printed: the call, the case, the number and the counts.
use reader::colour::colour;
use reader::end::end;
use reader::feed::feed;
use reader::number::{number_of, shade_number, shade_values};
use rules::{Answer, Session};
use std::io;

fn print_case(rt: &impl Print, call: &[u8], name: &[u8]) -> io::Result<()> {
    rt.write_all(call)?;
    rt.write_all(b" ")?;
    rt.write_all(name)?;
    rt.write_all(b":")
}

fn print_number(rt: &impl Print, n: u64) -> io::Result<()> {
    print!(rt; " {n}")
}

fn print_byte(rt: &impl Print, n: u8) -> io::Result<()> {
    print_number(rt, u64::from(n))
}

fn print_end(rt: &impl Print) -> io::Result<()> {
    rt.println("")
}

pub(crate) fn print_open(rt: &impl Print, name: &[u8], answer: Answer) -> io::Result<()> {
    print_case(rt, b"open", name)?;
    print_byte(rt, number_of(answer))?;
    print_end(rt)
}

// A feed with at most 120 bytes of output.
pub(crate) fn feed_within(
    rt: &impl Print,
    name: &[u8],
    session: Session,
    store: &mut [u8],
    piece: &[u8],
    room: usize,
) -> io::Result<Session> {
    let mut out = [0u8; 120];
    let n = room.min(out.len());
    let fed = feed(session, store, piece, &mut out[..n]);
    print_case(rt, b"feed", name)?;
    print_byte(rt, number_of(fed.answer))?;
    print_number(rt, fed.consumed as u64)?;
    print_number(rt, fed.written as u64)?;
    print_end(rt)?;
    Ok(fed.session)
}

pub(crate) fn feed_case(
    rt: &impl Print,
    name: &[u8],
    session: Session,
    store: &mut [u8],
    piece: &[u8],
) -> io::Result<Session> {
    feed_within(rt, name, session, store, piece, 120)
}

// An end with at most 120 bytes of output.
pub(crate) fn end_within(
    rt: &impl Print,
    name: &[u8],
    session: Session,
    store: &[u8],
    room: usize,
) -> io::Result<Session> {
    let mut out = [0u8; 120];
    let n = room.min(out.len());
    let ended = end(session, store, &mut out[..n]);
    print_case(rt, b"end", name)?;
    print_byte(rt, number_of(ended.answer))?;
    print_number(rt, ended.written as u64)?;
    print_end(rt)?;
    Ok(ended.session)
}

pub(crate) fn end_case(
    rt: &impl Print,
    name: &[u8],
    session: Session,
    store: &[u8],
) -> io::Result<Session> {
    end_within(rt, name, session, store, 120)
}

pub(crate) fn colour_case(
    rt: &impl Print,
    name: &[u8],
    session: Session,
    address: u8,
) -> io::Result<()> {
    let shade = colour(session, address);
    print_case(rt, b"colour", name)?;
    print_byte(rt, shade_number(shade))?;
    for value in shade_values(shade) {
        print_byte(rt, value)?;
    }
    print_end(rt)
}
