// RMC, the recommended minimum of a fix: the reader of its data, from left to right.
// Each field up to the date has a comma after it; of what follows, as much is read as stands there.
#![tactic(auto)]

ghost use Rattle.std.specs.Prelude.{◌≡◌, Ok};
ghost use Rattle.text.specs.Value.{value};
ghost use Rattle.text.specs.Answer.{Finds, seen, valued};
ghost use Rattle.fields.specs.Answer.{letter_held};
ghost use Rattle.rmc.specs.Rmc.{opt_letter, fix_part, motion, letters, ending, rmc};
ghost use Rattle.rmc.specs.Answer.{fix_of, motion_of, letters_of, ending_of, rmc_data};

use decimal::ShortDecimal;
use fields::{Both, Day, TimeOfDay};
use text::{Fault, Parsed};

// Where a comma stands, it is eaten, and one of `letters` after it.
fn after_comma(s: &[u8], at: usize, letters: &[u8]) -> (Option<u8>, usize)
    ensures { Finds s.now at (opt_letter letters.now) (seen letter_held) (Ok result) }
{
    let Ok(next) = text::byte(s, at, b',') else {
        return (None, at);
    };
    match text::one_among(s, next, letters) {
        Ok((letter, end)) => (Some(letter), end),
        Err(_) => (None, next),
    }
}

// Time, status and position.
#[derive(Clone, Copy)]
pub struct Fix {
    pub time: Option<TimeOfDay>,
    pub status: u8,
    pub position: Option<Both>,
}

fn fix_part(s: &[u8], at: usize) -> Parsed<Fix>
    ensures { Finds s.now at fix_part (seen fix_of) result }
{
    let (time, at) = fields::time_place(s, at)?;
    let (status, at) = fields::letter_place(s, at, b"ADV")?;
    let (position, at) = fields::position_place(s, at)?;
    let fix = Fix {
        time,
        status,
        position,
    };
    Ok((fix, at))
}

// Speed, course and date.
#[derive(Clone, Copy)]
pub struct Motion {
    pub speed: Option<ShortDecimal>,
    pub course: Option<ShortDecimal>,
    pub date: Option<Day>,
}

fn motion_part(s: &[u8], at: usize) -> Parsed<Motion>
    ensures { Finds s.now at motion (seen motion_of) result }
{
    let (speed, at) = fields::short_place(s, at)?;
    let (course, at) = fields::short_place(s, at)?;
    let (date, at) = fields::date_place(s, at)?;
    let motion = Motion {
        speed,
        course,
        date,
    };
    Ok((motion, at))
}

// Mode and navigational status, which may stand behind the variation.
#[derive(Clone, Copy)]
pub struct Letters {
    pub mode: Option<u8>,
    pub status: Option<u8>,
}

fn letters_part(s: &[u8], at: usize) -> (Letters, usize)
    ensures { Finds s.now at letters (seen letters_of) (Ok result) }
{
    let (mode, at) = after_comma(s, at, b"ACDEFMNPRSU");
    let (status, at) = after_comma(s, at, b"ADEMNSV");
    (Letters { mode, status }, at)
}

// Variation and the letters behind it.
#[derive(Clone, Copy)]
pub struct Ending {
    pub variation: Option<ShortDecimal>,
    pub letters: Letters,
}

fn ending_part(s: &[u8], at: usize) -> Parsed<Ending>
    ensures { Finds s.now at ending (seen ending_of) result }
{
    let (variation, at) = fields::parse_magnetic_variation(s, at)?;
    let (letters, at) = letters_part(s, at);
    Ok((Ending { variation, letters }, at))
}

// The data of an RMC sentence.
#[derive(Clone, Copy)]
pub struct RmcData {
    pub fix: Fix,
    pub motion: Motion,
    pub ending: Ending,
}

// The whole data of an RMC sentence; what follows the status is ignored.
pub fn do_parse_rmc(s: &[u8]) -> Result<RmcData, Fault>
    ensures { valued rmc_data result ≡ value (rmc s.now) }
{
    let (fix, at) = fix_part(s, 0)?;
    let (motion, at) = motion_part(s, at)?;
    let (ending, _) = ending_part(s, at)?;
    Ok(RmcData {
        fix,
        motion,
        ending,
    })
}
