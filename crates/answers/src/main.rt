// Answers lines over standard input and output, for the comparison with the Rust crate: a frame is two bytes, the length of
// a line, low byte first, and then the line; its answer is the 40 words of docs/ABI.md, 8 bytes each, low byte first.
#![tactic(auto)]

use std::io;
use std::io::{ErrorKind, Read, Write};

// How many words an answer has, and how many bytes a word.
const WORDS: usize = 40;

const WORD: usize = 8;

// The longest line that is answered.
const SPACE: usize = 4096;

// More frames than any run has: a program must end.
const FRAMES: u64 = 4000000000;

// Answers one line.
fn answer<W: Write>(output: &mut W, line: &[u8]) -> io::Result<()> {
    let mut words = [0; WORDS];
    capi::nmea_answer(line, &mut words);
    let mut bytes = [0; WORDS * WORD];
    for (place, word) in bytes.chunks_exact_mut(WORD).zip(&words) {
        place.copy_from_slice(&word.to_le_bytes());
    }
    output.write_all(&bytes)
}

// Fills a part; none where the input ends before it is full.
fn fill<R: Read>(input: &mut R, part: &mut [u8]) -> io::Result<Option<()>> {
    match input.read_exact(part) {
        Err(why) if why.kind() == ErrorKind::UnexpectedEof => Ok(None),
        filled => filled.map(Some),
    }
}

// Reads one frame into `space` and answers it; none at the end of the input, or where a frame is cut or too long.
fn next<R: Read, W: Write>(
    input: &mut R,
    output: &mut W,
    space: &mut [u8],
) -> io::Result<Option<()>> {
    let mut length = [0; 2];
    let Some(()) = fill(input, &mut length)? else {
        return Ok(None);
    };
    let Some(line) = space.get_mut(..usize::from(u16::from_le_bytes(length))) else {
        return Ok(None);
    };
    let Some(()) = fill(input, line)? else {
        return Ok(None);
    };
    answer(output, line)?;
    Ok(Some(()))
}

fn main(rt: HostRuntime) -> io::Result<()> {
    let mut input = rt.stdin();
    let mut output = rt.stdout();
    let mut space = [0; SPACE];
    for _ in 0..FRAMES {
        let Some(()) = next(&mut input, &mut output, &mut space)? else {
            break;
        };
    }
    Ok(())
}
