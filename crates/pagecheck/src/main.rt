// Reads stored pages, each undivided and cut into pieces of several sizes, with output buffers of several sizes, then cut in two at
// each of its places, and compares the text with the stored listing. The file `index` names the groups, a folder each, and `index`
// in a folder its pages; those of `expansion` are expansions of other pages, listed with the records of these. A line is printed for each
// group, one for all, and one for each reading that differs: page, cut and buffer.
#![tactic(auto)]

ghost use Rattle.std.specs.Prelude.{◌≤◌, ◌<◌, length};
ghost use Rattle.io.specs.Counts.{IsPrefixLen};

use demands::draw_cuts;
use reader::number::number_of;
use rules::{RECORD_SIZE, STORE_SIZE};
use std::fs::File;
use std::io;
use std::io::Read;
use std::rt::Files;

// Fixed buffers: a longer file is read as far as there is room, and lists otherwise than its listing.

// No path of a stored file is longer.
const PATH_SIZE: usize = 4096;

// No index is longer.
const INDEX_SIZE: usize = 4096;

// No stored page is longer.
const PAGE_SIZE: usize = 16384;

// No stored listing is longer.
const LISTING_SIZE: usize = 327680;

// No record's line is shorter.
const LINE_SIZE: usize = 32;

const RECORDS: usize = LISTING_SIZE / LINE_SIZE;

// One for each byte of a page, one for each record, and one more.
const CALLS: usize = PAGE_SIZE + RECORDS + 1;

// So many records are made text at a time.
const PART_SIZE: usize = 100 * RECORD_SIZE;

// All the records, and the largest buffer after them.
const OUTPUT_SIZE: usize = RECORDS * RECORD_SIZE + 4000;

// A stored page with its name and its listing.
#[derive(Clone, Copy)]
struct Stored<'a> {
    name: &'a [u8],
    page: &'a [u8],
    listing: &'a [u8],
}

// What a listing has after the lines of the records, if it begins with them.
fn after_lines<'a>(listing: &'a [u8], records: &[u8]) -> Option<&'a [u8]>
    requires { length records.now ≤ 4000 }
{
    let mut text = [0u8; 12800];
    let n = listing::put_lines(&mut text, records, records.len());
    listing.strip_prefix(&text[..n])
}

fn after_records<'a>(listing: &'a [u8], records: &[u8]) -> Option<&'a [u8]> {
    let mut rest = listing;
    for part in records.chunks(PART_SIZE) {
        rest = after_lines(rest, part)?;
    }
    Some(rest)
}

fn is_closing(rest: &[u8], number: u8, steps: u32) -> bool {
    let mut text = [0u8; 32];
    let n = listing::put_closing(&mut text, number, steps);
    rest == &text[..n]
}

// Whether the listing is the lines of the records and the closing line.
fn lists(listing: &[u8], records: &[u8], number: u8, steps: u32) -> bool {
    match after_records(listing, records) {
        Some(rest) => is_closing(rest, number, steps),
        None => false,
    }
}

// Whether the page, read by calls of these lengths into these rooms, gives its listing.
fn gives(stored: Stored, lengths: &[usize], rooms: &[usize]) -> bool {
    let mut store = [0u8; STORE_SIZE];
    let mut out = [0u8; OUTPUT_SIZE];
    let drawn = draw_cuts(u32::MAX, &mut store, stored.page, lengths, rooms, &mut out);
    lists(
        stored.listing,
        &out[..drawn.written],
        number_of(drawn.answer),
        drawn.session.steps,
    )
}

// Whether it does so in pieces of `cut` bytes and buffers of `buffer` bytes. A call for each piece and for each record is enough,
// since one that answers full wrote a record. Were they too few, or had the records no room, the last answer would be full, which
// no listing has.
fn agrees(stored: Stored, cut: usize, buffer: usize) -> bool
    requires { 0 < cut }
{
    let lengths = [cut; CALLS];
    let rooms = [buffer; CALLS];
    let pieces = (stored.page.len() / cut).min(PAGE_SIZE);
    let calls = pieces + (stored.listing.len() / LINE_SIZE).min(RECORDS) + 1;
    gives(stored, &lengths[..calls], &rooms[..calls])
}

fn print_differs(rt: &impl Print, name: &[u8], how: &[u8], bytes: usize) -> io::Result<()> {
    rt.write_all(name)?;
    rt.write_all(how)?;
    rt.print(bytes)
}

fn compare(rt: &impl Print, stored: Stored, cut: usize, buffer: usize) -> io::Result<()>
    requires { 0 < cut }
{
    if agrees(stored, cut, buffer) {
        return Ok(());
    }
    print_differs(rt, stored.name, b" differs: cut ", cut)?;
    println!(rt; ", buffer {buffer}")
}

// The page in two pieces, the first of so many bytes, with room for all its records.
fn compare_place(rt: &impl Print, stored: Stored, place: usize) -> io::Result<()> {
    let lengths = [place, PAGE_SIZE];
    let rooms = [OUTPUT_SIZE; 2];
    if gives(stored, &lengths, &rooms) {
        return Ok(());
    }
    print_differs(rt, stored.name, b" differs: cut at ", place)?;
    rt.println("")
}

fn compare_places(rt: &impl Print, stored: Stored) -> io::Result<()> {
    for place in 0..stored.page.len() {
        compare_place(rt, stored, place)?;
    }
    Ok(())
}

fn compare_buffers(rt: &impl Print, stored: Stored, cut: usize) -> io::Result<()>
    requires { 0 < cut }
{
    for buffer in [120, 121, 160, 4000] {
        compare(rt, stored, cut, buffer)?;
    }
    Ok(())
}

// Call by call, since each has to show that its cut is over 0, which the items of an array would not.
fn compare_cuts(rt: &impl Print, stored: Stored) -> io::Result<()> {
    compare_buffers(rt, stored, PAGE_SIZE)?;
    compare_buffers(rt, stored, 1)?;
    compare_buffers(rt, stored, 2)?;
    compare_buffers(rt, stored, 3)?;
    compare_buffers(rt, stored, 7)?;
    compare_buffers(rt, stored, 64)
}

// A path that has no room for a part goes without it, and names no file.
fn put_part(path: &mut [u8], at: usize, part: &[u8]) -> usize
    requires { at ≤ length path.old }
    ensures { result ≤ length path.new }
{
    if path.len() - at < part.len() {
        return at;
    }
    listing::put(path, at, part)
}

fn put_path(path: &mut [u8], group: &[u8], name: &[u8], suffix: &[u8]) -> usize
    ensures { IsPrefixLen result path.new }
{
    let at = put_part(path, 0, group);
    let at = put_part(path, at, b"/");
    let at = put_part(path, at, name);
    put_part(path, at, suffix)
}

fn say_failed(rt: &impl Eprint, path: &[u8], error: io::Error) {
    let _ = eprintln!(rt; "{}: {error}", path.escape_ascii());
}

// A path that is no text names no file.
fn open<R: Files>(rt: &R, path: &[u8]) -> io::Result<R::File> {
    match str::from_utf8(path) {
        Ok(path) => File::open(rt, path),
        Err(_) => Err(io::Error::from(io::ErrorKind::InvalidFilename)),
    }
}

// Reads until there is no more room or no more to read. A read that fails is said on standard error and ends it. `read_to_end` would
// take a longer file whole, which is cut here.
fn read_full(rt: &impl Eprint, path: &[u8], file: &mut impl Read, into: &mut [u8]) -> usize
    ensures { IsPrefixLen result into.new }
{
    let mut done: usize = 0;
    while done < into.len() {
        match file.read(&mut into[done..]) {
            Ok(0) => return done,
            Ok(n) => done += n,
            Err(error) => {
                say_failed(rt, path, error);
                return done;
            }
        }
    }
    done
}

// The bytes of a file, as many as there is room for. A file that cannot be opened is said on standard error, and has none.
fn load<'a>(
    rt: &(impl Files + Eprint),
    group: &[u8],
    name: &[u8],
    suffix: &[u8],
    into: &'a mut [u8],
) -> &'a [u8]
    ensures { length result.now ≤ length into.old }
{
    let mut path = [0u8; PATH_SIZE];
    let n = put_path(&mut path, group, name, suffix);
    let done = match open(rt, &path[..n]) {
        Ok(mut file) => read_full(rt, &path[..n], &mut file, into),
        Err(error) => {
            say_failed(rt, &path[..n], error);
            0
        }
    };
    &into[..done]
}

fn compare_page(rt: &(impl Files + Print + Eprint), group: &[u8], name: &[u8]) -> io::Result<()> {
    let mut page = [0u8; PAGE_SIZE];
    let mut listing = [0u8; LISTING_SIZE];
    let stored = Stored {
        name,
        page: load(rt, group, name, b".page", &mut page),
        listing: load(rt, group, name, b".listing", &mut listing),
    };
    compare_cuts(rt, stored)?;
    compare_places(rt, stored)
}

// A line without its line end, which the last may lack.
fn name_in(line: &[u8]) -> &[u8] {
    line.strip_suffix(b"\n").unwrap_or(line)
}

fn compare_pages(
    rt: &(impl Files + Print + Eprint),
    group: &[u8],
    index: &[u8],
) -> io::Result<u64> {
    let mut pages: u64 = 0;
    for line in index.split_inclusive(|byte| *byte == b'\n') {
        compare_page(rt, group, name_in(line))?;
        pages = pages.saturating_add(1);
    }
    Ok(pages)
}

fn print_count(rt: &impl Print, pages: u64) -> io::Result<()> {
    println!(rt; "{pages} pages")
}

fn compare_group(rt: &(impl Files + Print + Eprint), group: &[u8]) -> io::Result<u64> {
    let mut index = [0u8; INDEX_SIZE];
    let index = load(rt, group, b"index", b"", &mut index);
    let pages = compare_pages(rt, group, index)?;
    rt.write_all(group)?;
    rt.write_all(b": ")?;
    print_count(rt, pages)?;
    Ok(pages)
}

fn compare_groups(rt: &(impl Files + Print + Eprint), index: &[u8]) -> io::Result<u64> {
    let mut pages: u64 = 0;
    for line in index.split_inclusive(|byte| *byte == b'\n') {
        pages = pages.saturating_add(compare_group(rt, name_in(line))?);
    }
    Ok(pages)
}

fn main(rt: HostRuntime) -> io::Result<()> {
    let mut index = [0u8; INDEX_SIZE];
    let index = load(&rt, b".", b"index", b"", &mut index);
    let pages = compare_groups(&rt, index)?;
    print_count(&rt, pages)
}
