// Letters: one of a list with its comma, and the letter of a unit, which may be missing.
ghost use Rattle.std.specs.Prelude.{Ok};
ghost use Rattle.text.specs.Answer.{Finds, next, itself};
ghost use Rattle.fields.specs.Letter.{letter_place, unit_letter, unit_place};

use text::{Fault, Parsed};

// One of `letters`, and a comma.
pub fn letter_place(s: &[u8], at: usize, letters: &[u8]) -> Parsed<u8>
    ensures { Finds s.now at (letter_place letters.now) itself result }
{
    let (letter, at) = text::one_among(s, at, letters)?;
    let at = text::byte(s, at, b',')?;
    Ok((letter, at))
}

// The place behind a unit's letter, or the same place where it is missing.
pub fn unit_letter(s: &[u8], at: usize, letter: u8) -> usize
    ensures { Finds s.now at (unit_letter letter) next (Ok result) }
{
    text::byte(s, at, letter).unwrap_or(at)
}

// A unit's letter, or nothing, and a comma.
pub fn unit_place(s: &[u8], at: usize, letter: u8) -> Result<usize, Fault>
    ensures { Finds s.now at (unit_place letter) next result }
{
    let at = unit_letter(s, at, letter);
    text::byte(s, at, b',')
}
