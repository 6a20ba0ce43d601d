// One step: the line at a place, what it says of its row, and the next place.
ghost use Rattle.std.specs.Prelude.{◌≡◌, length};
ghost use Rattle.logs.specs.Step.{step_of};
ghost use Rattle.logs.specs.Answer.{SaysStep};
ghost use Rattle.logs.specs.Code.{bar_in, barred_by};

use crate::follow::follow_line;
use crate::line;
use crate::line::Line;
use frame::Refusal;
use gather::line::Outcome;

// The end, or a line, what it did to its row, and the next place. Where its row is complete, the words of the row are the group.
#[derive(Clone, Copy)]
pub enum Stepped {
    End(usize),
    Line(Line, Outcome, usize),
}

// Whether a log may be walked from a place: what bars it, if something does.
pub(crate) fn start(log: &[u8], place: usize) -> Result<(), Refusal>
    ensures { bar_in result ≡ barred_by log.now place }
{
    if line::LONGEST < log.len() {
        return Err(Refusal::LogTooLong(log.len()));
    }
    if !line::is_place(log, place) {
        return Err(Refusal::BadPlace(place));
    }
    Ok(())
}

// The step at a place of a log, with the gatherer's words as they were left.
pub fn step(log: &[u8], place: usize, words: &mut [u32]) -> Result<Stepped, Refusal>
    ensures { SaysStep (step_of log.now place words.old) words.new result }
{
    start(log, place)?;
    if place == log.len() {
        return Ok(Stepped::End(place));
    }
    let (line, next) = line::line_at(log, place);
    let outcome = follow_line(line, words);
    Ok(Stepped::Line(line, outcome, next))
}
