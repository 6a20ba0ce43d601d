// GGA, a fix and its height: the reader of its data, from left to right.
// Each field up to the geoid has a comma after it; what follows is ignored.
#![tactic(auto)]

ghost use Rattle.std.specs.Prelude.{◌≡◌};
ghost use Rattle.text.specs.Value.{value};
ghost use Rattle.text.specs.Answer.{Finds, held, seen, valued};
ghost use Rattle.gga.specs.Gga.{satellites_place, fix_part, height, gga};
ghost use Rattle.gga.specs.Answer.{fix_of, height_of, gga_data};

use decimal::ShortDecimal;
use fields::{Both, TimeOfDay};
use text::{Fault, Parsed};

// The most satellites that are read: any u32.
const SATELLITES: u32 = 4294967295;

// The satellites in use, with their comma.
fn satellites_place(s: &[u8], at: usize) -> Parsed<Option<u32>>
    ensures { Finds s.now at satellites_place (seen held) result }
{
    let (count, at) = text::opt_number(s, at, SATELLITES);
    let at = text::byte(s, at, b',')?;
    Ok((count, at))
}

// Time, position, fix and satellites.
#[derive(Clone, Copy)]
pub struct Fix {
    pub time: Option<TimeOfDay>,
    pub position: Option<Both>,
    pub quality: u8,
    pub satellites: Option<u32>,
}

fn fix_part(s: &[u8], at: usize) -> Parsed<Fix>
    ensures { Finds s.now at fix_part (seen fix_of) result }
{
    let (time, at) = fields::time_place(s, at)?;
    let (position, at) = fields::position_place(s, at)?;
    let (quality, at) = fields::letter_place(s, at, b"012345678")?;
    let (satellites, at) = satellites_place(s, at)?;
    let fix = Fix {
        time,
        position,
        quality,
        satellites,
    };
    Ok((fix, at))
}

// Dilution, altitude and geoid.
#[derive(Clone, Copy)]
pub struct Height {
    pub hdop: Option<ShortDecimal>,
    pub altitude: Option<ShortDecimal>,
    pub geoid: Option<ShortDecimal>,
}

fn height_part(s: &[u8], at: usize) -> Parsed<Height>
    ensures { Finds s.now at height (seen height_of) result }
{
    let (hdop, at) = fields::short_place(s, at)?;
    let (altitude, at) = fields::short_place(s, at)?;
    let at = fields::unit_place(s, at, b'M')?;
    let (geoid, at) = fields::short_place(s, at)?;
    let at = fields::unit_letter(s, at, b'M');
    let height = Height {
        hdop,
        altitude,
        geoid,
    };
    Ok((height, at))
}

// The data of a GGA sentence.
#[derive(Clone, Copy)]
pub struct GgaData {
    pub fix: Fix,
    pub height: Height,
}

// The whole data of a GGA sentence.
pub fn do_parse_gga(s: &[u8]) -> Result<GgaData, Fault>
    ensures { valued gga_data result ≡ value (gga s.now) }
{
    let (fix, at) = fix_part(s, 0)?;
    let (height, _) = height_part(s, at)?;
    Ok(GgaData { fix, height })
}
