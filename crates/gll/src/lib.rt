// GLL, a position and its time: the reader of its data, from left to right.
// Each field but the mode has a comma after it; what follows the mode is ignored.
#![tactic(auto)]

ghost use Rattle.std.specs.Prelude.{◌≡◌};
ghost use Rattle.text.specs.Value.{value};
ghost use Rattle.text.specs.Answer.{Finds, seen, valued};
ghost use Rattle.fields.specs.Answer.{letter_held};
ghost use Rattle.gll.specs.Gll.{mode, gll};
ghost use Rattle.gll.specs.Answer.{gll_data};

use fields::{Both, TimeOfDay};
use text::{Fault, Parsed};

// Nothing where the text ends, else a mode's letter.
fn mode(s: &[u8], at: usize) -> Parsed<Option<u8>>
    ensures { Finds s.now at mode (seen letter_held) result }
{
    if s.len() <= at {
        return Ok((None, at));
    }
    let (letter, at) = text::one_among(s, at, b"ACDEFMNPRSU")?;
    Ok((Some(letter), at))
}

// The data of a GLL sentence.
#[derive(Clone, Copy)]
pub struct GllData {
    pub position: Option<Both>,
    pub time: Option<TimeOfDay>,
    pub status: u8,
    pub mode: Option<u8>,
}

// The whole data of a GLL sentence.
pub fn do_parse_gll(s: &[u8]) -> Result<GllData, Fault>
    ensures { valued gll_data result ≡ value (gll s.now) }
{
    let (position, at) = fields::position_place(s, 0)?;
    let (time, at) = fields::time_place(s, at)?;
    let (status, at) = fields::letter_place(s, at, b"AV")?;
    let (mode, _) = mode(s, at)?;
    Ok(GllData {
        position,
        time,
        status,
        mode,
    })
}
