// Replays a fixed list of lines and expected answers (standard input; its first line says how it was made) against the proved reader:
// a frame is two bytes, the length of a line, low byte first, the line, and the 40 words of docs/ABI.md, 8 bytes each, low byte first.
#![tactic(auto)]

use std::io;
use std::io::{ErrorKind, Read};
use std::process::ExitCode;

// How many words an answer has, and how many bytes a word.
const WORDS: usize = 40;

const WORD: usize = 8;

// The longest line that is replayed.
const SPACE: usize = 4096;

// More frames, and more bytes of the first line, than any list has: a program must end.
const MOST: u64 = 4000000000;

// What reading a frame came to.
#[derive(Clone, Copy, PartialEq, Eq)]
enum Frame {
    Same,
    Differs,
    End,
    // The list ends within a frame, or has a line that is too long.
    Cut,
}

// Fills a part; none where the input ends before it is full.
fn fill<R: Read>(input: &mut R, part: &mut [u8]) -> io::Result<Option<()>> {
    match input.read_exact(part) {
        Err(why) if why.kind() == ErrorKind::UnexpectedEof => Ok(None),
        filled => filled.map(Some),
    }
}

// Whether the bytes write our answer to a line.
fn is_answer(line: &[u8], bytes: &[u8]) -> bool {
    let mut words = [0; WORDS];
    capi::nmea_answer(line, &mut words);
    bytes
        .chunks_exact(WORD)
        .zip(&words)
        .all(|(place, word)| place == word.to_le_bytes().as_slice())
}

// Reads one frame into `space`, and replays it. A list ends before the first byte of a frame.
fn next<R: Read>(input: &mut R, space: &mut [u8]) -> io::Result<Frame> {
    let mut length = [0; 2];
    let Some(()) = fill(input, &mut length[..1])? else {
        return Ok(Frame::End);
    };
    let Some(()) = fill(input, &mut length[1..])? else {
        return Ok(Frame::Cut);
    };
    let Some(line) = space.get_mut(..usize::from(u16::from_le_bytes(length))) else {
        return Ok(Frame::Cut);
    };
    let Some(()) = fill(input, line)? else {
        return Ok(Frame::Cut);
    };
    let mut expected = [0; WORDS * WORD];
    let Some(()) = fill(input, &mut expected)? else {
        return Ok(Frame::Cut);
    };
    if is_answer(line, &expected) {
        Ok(Frame::Same)
    } else {
        Ok(Frame::Differs)
    }
}

// Passes over the first line; none where the list has none.
fn skip_title<R: Read>(input: &mut R) -> io::Result<Option<()>> {
    let mut byte = [0; 1];
    for _ in 0..MOST {
        let Some(()) = fill(input, &mut byte)? else {
            return Ok(None);
        };
        if byte[0] == b'\n' {
            return Ok(Some(()));
        }
    }
    Ok(None)
}

// Replays the list and tells what it came to: each line whose answer differs, and how many lines the list has, how many of them differ,
// and whether it was cut off.
fn replay<R: Read>(rt: &impl Print, input: &mut R) -> io::Result<()> {
    let mut space = [0; SPACE];
    let mut lines: u64 = 0;
    let mut differ: u64 = 0;
    let mut last = Frame::End;
    for line in 1..=MOST {
        last = next(input, &mut space)?;
        match last {
            Frame::Same => {}
            Frame::Differs => {
                differ += 1;
                println!(rt; "differs: line {line}")?;
            }
            Frame::End | Frame::Cut => break,
        }
        lines = line;
    }
    let cut = u64::from(last == Frame::Cut);
    println!(rt; "replayed {lines} lines, differ {differ}, cut off {cut}")
}

fn main(rt: HostRuntime) -> io::Result<ExitCode> {
    let mut input = rt.stdin();
    let Some(()) = skip_title(&mut input)? else {
        eprintln!(rt; "standard input: the list has no first line")?;
        return Ok(ExitCode::FAILURE);
    };
    replay(&rt, &mut input)?;
    Ok(ExitCode::SUCCESS)
}
