// Records: their fields as the rules fill them, and their 40 bytes at a place of the output.
#![tactic(auto)]

ghost use Rattle.std.specs.Prelude.{◌≡◌, ◌++◌, ◌+◌, ◌≤◌, length, set};
ghost use Rattle.rules.specs.Numbers.{record_size};
ghost use Rattle.rules.specs.Record.{word, words, bytes_of, flags, set_number, record_of, mark, character_record, figure};
ghost use Rattle.records.specs.Bytes.{overwrite, head_of, head_bytes};
ghost use Rattle.records.specs.Fields.{ink_of};

use rules::{Colour, Look, Mode, ORIGIN, Point, Record, Repertoire, Text};

fn put_word(out: &mut [u8], at: usize, n: u32)
    requires { at + 4 ≤ length out.old }
    ensures { out.new ≡ overwrite at (word n) out.old }
{
    // Four stores, which become one. Tried, and slower: copy_from_slice looks for an overlap first, and a record takes 94 instructions
    // in place of 46.
    let [b0, b1, b2, b3] = n.to_le_bytes();
    out[at] = b0;
    out[at + 1] = b1;
    out[at + 2] = b2;
    out[at + 3] = b3;
}

fn put_point(out: &mut [u8], at: usize, p: Point)
    requires { at + 8 ≤ length out.old }
    ensures { out.new ≡ overwrite at (words p) out.old }
{
    put_word(out, at, p.x);
    put_word(out, at + 4, p.y);
}

// The first eight bytes of a record as two numbers, lowest byte first.
// Two numbers and not eight bytes: a run changes one part and stores four bytes at a time.
#[derive(Clone, Copy)]
pub struct Head {
    pub first: u32,
    pub second: u32,
}

// The same head with another code.
pub fn with_code(head: Head, code: u8) -> Head
    ensures { head_bytes result ≡ set (head_bytes head) 7 code }
{
    let [colour1, colour2, set, _] = head.second.to_le_bytes();
    let second = u32::from_le_bytes([colour1, colour2, set, code]);
    Head { second, ..head }
}

// The same head of another kind, with other flags.
pub fn with_kind(head: Head, kind: u8, flags: u8) -> Head
    ensures { head_bytes result ≡ set (set (head_bytes head) 0 kind) 1 flags }
{
    let [_, _, mode, colour0] = head.first.to_le_bytes();
    let first = u32::from_le_bytes([kind, flags, mode, colour0]);
    Head { first, ..head }
}

pub fn put_words(out: &mut [u8], at: usize, head: Head, p0: Point, p1: Point, p2: Point, pel: Point)
    requires { at + record_size ≤ length out.old }
    ensures { out.new ≡ overwrite at (head_bytes head ++ words p0 ++ words p1 ++ words p2 ++ words pel) out.old }
{
    put_word(out, at, head.first);
    put_word(out, at + 4, head.second);
    put_point(out, at + 8, p0);
    put_point(out, at + 16, p1);
    put_point(out, at + 24, p2);
    put_point(out, at + 32, pel);
}

pub fn put_record(out: &mut [u8], at: usize, r: Record)
    requires { at + record_size ≤ length out.old }
    ensures { out.new ≡ overwrite at (bytes_of r) out.old }
{
    let first = u32::from_le_bytes([r.kind, r.flags, r.mode, r.colour0]);
    let second = u32::from_le_bytes([r.colour1, r.colour2, r.set, r.code]);
    let head = Head { first, second };
    put_words(out, at, head, r.p0, r.p1, r.p2, r.pel);
}

#[tactic(auto, unfolding(rules::specs::Record::flags))]
pub fn flags(filled: bool, wrapped: bool, closing: bool) -> u8
    ensures { result ≡ flags filled wrapped closing }
{
    u8::from(filled) + 2 * u8::from(wrapped) + 4 * u8::from(closing)
}

// The variants stand in the order of their numbers.
#[tactic(auto, unfolding(rules::specs::Record::set_number))]
pub fn set_number(repertoire: Repertoire) -> u8
    ensures { result ≡ set_number repertoire }
{
    repertoire as u8
}

// The mode and the colour bytes of a record.
#[derive(Clone, Copy)]
struct Ink {
    mode: u8,
    colour0: u8,
    colour1: u8,
    colour2: u8,
}

#[tactic(auto, unfolding(rules::specs::Record::mode_number, rules::specs::Record::colour0, rules::specs::Record::colour1, rules::specs::Record::colour2))]
fn ink_of(c: Colour) -> Ink
    ensures { result ≡ ink_of c }
{
    let (colour0, colour1, colour2) = match c.mode {
        Mode::Direct => (c.green, c.red, c.blue),
        Mode::Mapped => (c.foreground, 0, 0),
        Mode::TwoColour => (c.foreground, c.background, 0),
    };
    Ink {
        mode: c.mode as u8,
        colour0,
        colour1,
        colour2,
    }
}

#[tactic(auto, unfolding(rules::specs::Record::record_of))]
fn record_of(
    look: Look,
    kind: u8,
    flags: u8,
    repertoire: u8,
    code: u8,
    p0: Point,
    p1: Point,
    p2: Point,
) -> Record
    ensures { result ≡ record_of look kind flags repertoire code p0 p1 p2 }
{
    let ink = ink_of(look.colour);
    Record {
        kind,
        flags,
        mode: ink.mode,
        colour0: ink.colour0,
        colour1: ink.colour1,
        colour2: ink.colour2,
        set: repertoire,
        code,
        p0,
        p1,
        p2,
        pel: look.domain.pel,
    }
}

// The head of such a record.
pub fn head_of(look: Look, kind: u8, flags: u8, repertoire: u8, code: u8) -> Head
    ensures { (p q s : Point) → head_bytes result ≡ head_of (record_of look kind flags repertoire code p q s) }
{
    let ink = ink_of(look.colour);
    let first = u32::from_le_bytes([kind, flags, ink.mode, ink.colour0]);
    let second = u32::from_le_bytes([ink.colour1, ink.colour2, repertoire, code]);
    Head { first, second }
}

#[tactic(auto, unfolding(rules::specs::Record::mark))]
pub fn mark(look: Look, kind: u8, repertoire: u8, code: u8, p: Point) -> Record
    ensures { result ≡ mark look kind repertoire code p }
{
    record_of(look, kind, 0, repertoire, code, p, ORIGIN, ORIGIN)
}

#[tactic(auto, unfolding(rules::specs::Record::character_record))]
pub fn character(look: Look, repertoire: u8, code: u8, text: Text) -> Record
    ensures { result ≡ character_record look repertoire code text }
{
    record_of(
        look,
        6,
        0,
        repertoire,
        code,
        text.cursor,
        text.field,
        ORIGIN,
    )
}

#[tactic(auto, unfolding(rules::specs::Record::figure))]
pub fn figure(look: Look, kind: u8, flags: u8, p0: Point, p1: Point, p2: Point) -> Record
    ensures { result ≡ figure look kind flags p0 p1 p2 }
{
    record_of(look, kind, flags, 0, 0, p0, p1, p2)
}
