// What C and Rust call: a line's refusal number, and its whole answer in words.
#![tactic(auto)]

pub mod lend;
pub mod totals;

ghost use Rattle.std.specs.Prelude.{◌≡◌, ◌≤◌, ◌↔◌};
ghost use Rattle.std.proofs.Math.Option.{none};
ghost use Rattle.answer.specs.Sentence.{answer, verdict_of};
ghost use Rattle.words.specs.Words.{refusal_number};
ghost use Rattle.capi.specs.Answer.{Answered};

use words::WORDS;

// What a call answers that has written what it must, and one that has written nothing; no refusal has that number.
const DONE: u32 = 0;

const UNDONE: u32 = 255;

// The number of a line's refusal, at most 11; 0 exactly if it is accepted.
pub fn nmea_refusal(line: &[u8]) -> u32
    ensures number { result ≡ refusal_number (answer line.now) }
    ensures accepted { (result ≡ 0) ↔ (verdict_of (answer line.now) ≡ none) }
    ensures most { result ≤ 11 }
{
    match intake::take(line, &mut [], &mut []) {
        Ok(_) => 0,
        Err(why) => why.number(),
    }
}

// The whole answer to a line in the first 40 words of a buffer, and 0; or 255 where the buffer is shorter.
pub fn nmea_answer(line: &[u8], out: &mut [u64]) -> u32
    ensures { Answered line.now out.old out.new result }
{
    if out.len() < WORDS {
        return UNDONE;
    }
    // What it says of the line stands in the words.
    let _ = intake::take(line, out, &mut []);
    DONE
}
