// Records as lines of text: the fields in order as decimal numbers, with a blank between them.
// What puts text at a place answers the place after it. Numbers are put by crates/digits, not by std's formatting; see there
// why.
#![tactic(auto)]

ghost use Rattle.std.specs.Prelude.{◌≡◌, ◌+◌, ◌*◌, ◌/◌, ◌≤◌, ◌<◌, min, length};
ghost use Rattle.io.specs.Counts.{IsPrefixLen};
ghost use Rattle.digits.specs.Decimal.{Put};
ghost use Rattle.listing.specs.Text.{word_at, separator, fields_to, line, lines_to, closing};

use digits::{put_byte, put_number, put_short, put_signed};
use rules::RECORD_SIZE;

const HEAD_FIELDS: usize = 8;

const FIELDS: usize = 16;

pub fn put(text: &mut [u8], at: usize, bytes: &[u8]) -> usize
    requires { at + length bytes.now ≤ length text.old }
    ensures { Put at bytes.now text.old text.new result }
{
    let end = at + bytes.len();
    text[at..end].copy_from_slice(bytes);
    end
}

#[tactic(auto, unfolding(crate::specs::Text::word_at))]
fn word_at(bytes: &[u8], at: usize) -> u32
    requires { at + 4 ≤ length bytes.now }
    ensures { result ≡ word_at bytes.now at }
{
    u32::from_le_bytes([bytes[at], bytes[at + 1], bytes[at + 2], bytes[at + 3]])
}

// The fields that are bytes, each with the blank after it.
fn put_head(text: &mut [u8], at: usize, bytes: &[u8]) -> usize
    requires { (length bytes.now ≡ 40) × (at + 32 ≤ length text.old) }
    ensures put { Put at (fields_to bytes.now 8) text.old text.new result }
    ensures upper_bound { result ≤ at + 32 }
{
    let mut to = at;
    for i in 0..HEAD_FIELDS {
        let end = put_short(text, to, u32::from(bytes[i]));
        to = put_byte(text, end, b' ');
    }
    to
}

#[tactic(auto, unfolding(crate::specs::Text::separator))]
fn separator(i: usize) -> u8
    ensures { result ≡ separator i }
{
    if i < FIELDS - 1 { b' ' } else { b'\n' }
}

fn put_line(text: &mut [u8], at: usize, bytes: &[u8]) -> usize
    requires { (length bytes.now ≡ 40) × (at + 128 ≤ length text.old) }
    ensures put { Put at (line bytes.now) text.old text.new result }
    ensures upper_bound { result ≤ at + 128 }
{
    let mut to = put_head(text, at, bytes);
    for i in HEAD_FIELDS..FIELDS {
        let end = put_signed(text, to, word_at(bytes, 4 * i - 24));
        to = put_byte(text, end, separator(i));
    }
    to
}

// The lines of the records that were written to out. A line has at most 128 bytes: eight fields of at most three, eight of at
// most eleven, and the byte after each.
pub fn put_lines(text: &mut [u8], out: &[u8], written: usize) -> usize
    requires { 16 * length out.now ≤ 5 * length text.old }
    ensures put { Put 0 (lines_to out.now (min written (length out.now) / 40)) text.old
        text.new result }
    ensures prefix_len { IsPrefixLen result text.new }
{
    let records = written.min(out.len()) / RECORD_SIZE;
    let mut to = 0;
    for i in 0..records {
        let from = RECORD_SIZE * i;
        to = put_line(text, to, &out[from..from + RECORD_SIZE]);
    }
    to
}

// The line that ends a listing.
pub fn put_closing(text: &mut [u8], number: u8, steps: u32) -> usize
    requires { 32 ≤ length text.old }
    ensures put { Put 0 (closing number steps) text.old text.new result }
    ensures prefix_len { IsPrefixLen result text.new }
{
    let word = put(text, 0, b"end ");
    let first = put_number(text, word, u32::from(number));
    let second = put(text, first, b" ");
    let end = put_number(text, second, steps);
    put(text, end, b"\n")
}
