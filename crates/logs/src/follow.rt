// What a line does to the gatherer's words.
ghost use Rattle.sentence.specs.Answer.{answer_of};
ghost use Rattle.fed.specs.Line.{read, accepted_gsv};
ghost use Rattle.logs.specs.Answer.{line_in, Follows};

use crate::line::Line;
use frame::Refusal;
use gather::line::Outcome;
use sentence::Record;

// What a line's answer does to them: only an accepted GSV line does anything.
pub fn follow(answer: Result<Record, Refusal>, words: &mut [u32]) -> Outcome
    ensures { Follows (accepted_gsv (read (answer_of answer))) words.old words.new result }
{
    match answer {
        Ok(Record::Gsv(g)) => gather::table::gather(words, g),
        _ => Outcome::Nothing,
    }
}

pub(crate) fn follow_line(line: Line, words: &mut [u32]) -> Outcome
    ensures { Follows (accepted_gsv (line_in line)) words.old words.new result }
{
    match line {
        Some(answer) => follow(answer, words),
        None => Outcome::Nothing,
    }
}
