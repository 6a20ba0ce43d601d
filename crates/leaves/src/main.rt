// Runs the leaf readers at their limits, a case for each line of standard input: `READER NUMBER|TEXT`. A reader is known by its first
// byte; the number is the place to read at, or what else it takes; the text is any bytes. A line with no number there says why the cases
// below it are there. Each line is written again with the reader's whole answer behind it. What `stdout` expects was worked out from
// the scope's words, and the floats from the exact quotients.
#![tactic(auto)]

mod answer;
mod reader;

use reader::Reader;
use std::io;
use std::io::Read;

// The first byte of a reader's name, its number and its text.
#[derive(Clone, Copy)]
struct Case<'a> {
    name: u8,
    number: u32,
    text: &'a [u8],
}

// The case that a line writes, if it writes one. One byte, whatever it is, stands between the number and the text.
fn case_of(line: &[u8]) -> Option<Case<'_>> {
    let mut parts = line.splitn(2, |byte| *byte == b' ');
    parts.next()?;
    let rest = parts.next()?;
    let (number, end) = text::number(rest, 0, u32::MAX).ok()?;
    let (_, text) = rest.get(end..)?.split_first()?;
    Some(Case {
        name: *line.first()?,
        number,
        text,
    })
}

// A line again, and what comes of its case. No reader answers to an unknown name.
fn row(rt: &impl Print, line: &[u8]) -> io::Result<()> {
    rt.write_all(line)?;
    if let Some(case) = case_of(line) {
        rt.write_all(b" = ")?;
        if let Ok(reader) = Reader::try_from(case.name) {
            reader.answer(rt, case.number, case.text)?;
        }
    }
    rt.write_all(b"\n")
}

// Each line of the table. What stands behind the last line feed is none.
fn rows(rt: &impl Print, table: &[u8]) -> io::Result<()> {
    for line in table.split_inclusive(|byte| *byte == b'\n') {
        if let Some(line) = line.strip_suffix(b"\n") {
            row(rt, line)?;
        }
    }
    Ok(())
}

fn main(rt: HostRuntime) -> io::Result<()> {
    let mut table = Vec::new(rt.alloc());
    rt.stdin().read_to_end(&mut table)?;
    rows(&rt, &table)
}
