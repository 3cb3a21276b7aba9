// Lists the page on standard input: a line for each record as it is read, then `end`, the number of the end call and the
// steps. After a refusal nothing more is read. A read or a write that fails is said on standard error and ends the program.
#![tactic(auto)]

use pages::Page;
use pages::error::PageError;
use reader::number::number_of;
use rules::RECORD_SIZE;
use std::io;
use std::io::Read;

// The lines of so many records are written at a time, as soon as they are read.
const RECORDS: usize = 1024;

const OUTPUT_SIZE: usize = RECORDS * RECORD_SIZE;

// No record's line is longer.
const LINE_SIZE: usize = 128;

const TEXT_SIZE: usize = RECORDS * LINE_SIZE;

// The records of a call are one part; by the parts it shows that the text has room for their lines.
fn write_lines(rt: &impl Print, records: &[u8], text: &mut [u8; TEXT_SIZE]) -> io::Result<()> {
    for part in records.chunks(OUTPUT_SIZE) {
        let n = listing::put_lines(text, part, part.len());
        rt.write_all(&text[..n])?;
    }
    Ok(())
}

fn list_page(rt: &impl Print, input: &mut impl Read) -> Result<(), PageError> {
    let mut page = Page::<OUTPUT_SIZE>::new();
    let mut text = [0u8; TEXT_SIZE];
    let mut write = |records: &[u8]| write_lines(rt, records, &mut text);
    page.read(input, &mut write)?;
    let answer = page.end(&mut write)?;
    let n = listing::put_closing(&mut text, number_of(answer), page.session.steps);
    rt.write_all(&text[..n]).map_err(PageError::Output)
}

fn main(rt: HostRuntime) {
    let mut input = rt.stdin();
    if let Err(error) = list_page(&rt, &mut input) {
        let _ = eprintln!(rt; "{error}");
    }
}
