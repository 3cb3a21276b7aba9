// Reads the page on standard input without listing it, for measurements, and prints `end`, the number of the end call and
// the steps, then a byte of the output, so that no compiler can leave the records out. An argument says how often the page
// is read, each time from its start and from an opened session; standard input that is no file is kept whole for more than
// once. A read or a write that fails is said on standard error and ends the program.
#![tactic(auto)]

ghost use Rattle.std.specs.Prelude.{◌≡◌, Ok};

use pages::Page;
use pages::error::PageError;
use reader::number::number_of;
use rules::RECORD_SIZE;
use std::fs::File;
use std::io;
use std::io::{Read, Seek, SeekFrom};
use std::rt::{Env, Files};

const MOST_ROUNDS: u32 = 1000000;

// The records of a call: at most so many bytes.
const OUTPUT_SIZE: usize = 4096 * RECORD_SIZE;

// The number that decimal digits stand for, as far as they are digits and stay in range.
fn number_in(text: &[u8]) -> u32 {
    let mut number: u32 = 0;
    for byte in text {
        if !byte.is_ascii_digit() || MOST_ROUNDS < number {
            return number;
        }
        number = 10 * number + u32::from(byte - b'0');
    }
    number
}

fn rounds_asked(rt: &impl Env) -> u32 {
    let mut text = [0u8; 16];
    match rt.arg(1, &mut text) {
        Ok(n) => number_in(&text[..n]),
        Err(_) => 1,
    }
}

// The records of a call are let go.
fn drop_records(_records: &[u8]) -> io::Result<()>
    ensures { result ≡ Ok tt }
{
    Ok(())
}

// Standard input once more, from the start of the file that it is.
fn from_start<R: Files>(rt: &R) -> io::Result<R::File> {
    let mut input = File::open(rt, "/dev/stdin")?;
    input.seek(SeekFrom::Start(0))?;
    Ok(input)
}

// The page, where it is read more than once from standard input that cannot go back to its start.
fn keep_page<R: Files + AllocGlobal>(
    rt: &R,
    input: &mut impl Read,
    rounds: u32,
) -> io::Result<Option<Vec<u8>>> {
    if rounds < 2 || from_start(rt).is_ok() {
        return Ok(None);
    }
    let mut page = Vec::new(rt.alloc());
    input.read_to_end(&mut page)?;
    Ok(Some(page))
}

// Reads the page once more from its start: the page that is kept, else the file.
fn read_again(
    rt: &impl Files,
    kept: Option<&[u8]>,
    page: &mut Page<OUTPUT_SIZE>,
) -> Result<(), PageError> {
    page.reopen();
    if let Some(mut bytes) = kept {
        return page.read(&mut bytes, &mut drop_records);
    }
    let mut input = from_start(rt).map_err(PageError::Input)?;
    page.read(&mut input, &mut drop_records)
}

fn read_rounds(
    rt: &impl Files,
    input: &mut impl Read,
    kept: Option<&[u8]>,
    rounds: u32,
    page: &mut Page<OUTPUT_SIZE>,
) -> Result<(), PageError> {
    page.read(input, &mut drop_records)?;
    for _ in 1..rounds {
        page.end(&mut drop_records)?;
        read_again(rt, kept, page)?;
    }
    Ok(())
}

fn print_end(rt: &impl Print, closing: &[u8], byte: u8) -> io::Result<()> {
    rt.write_all(closing)?;
    rt.print(byte)
}

fn feed_page<R: Files + AllocGlobal + Print + Env>(
    rt: &R,
    input: &mut impl Read,
) -> Result<(), PageError> {
    let mut page = Page::<OUTPUT_SIZE>::new();
    let rounds = rounds_asked(rt);
    match keep_page(rt, input, rounds).map_err(PageError::Input)? {
        Some(bytes) => read_rounds(rt, &mut &bytes[..], Some(&bytes[..]), rounds, &mut page)?,
        None => read_rounds(rt, input, None, rounds, &mut page)?,
    }
    let answer = page.end(&mut drop_records)?;
    let steps = page.session.steps;
    let mut text = [0u8; 32];
    let n = listing::put_closing(&mut text, number_of(answer), steps);
    let byte = page.out.get(steps as usize).copied().unwrap_or(0);
    print_end(rt, &text[..n], byte).map_err(PageError::Output)
}

fn main(rt: HostRuntime) {
    let mut input = rt.stdin();
    if let Err(error) = feed_page(&rt, &mut input) {
        let _ = eprintln!(rt; "{error}");
    }
}
