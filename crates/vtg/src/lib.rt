// VTG, course and speed over ground: the reader of its data, from left to right.
// Each field up to that of the N has a comma after it; what follows is ignored.
#![tactic(auto)]

ghost use Rattle.std.specs.Prelude.{◌≡◌};
ghost use Rattle.text.specs.Value.{value};
ghost use Rattle.text.specs.Answer.{Finds, seen, valued};
ghost use Rattle.fields.specs.Answer.{short_held};
ghost use Rattle.vtg.specs.Vtg.{knots_of, speed_of, courses, speed, vtg};
ghost use Rattle.vtg.specs.Answer.{speed_held, vtg_data};

use decimal::ShortDecimal;
use text::{Fault, Parsed};

// Both courses, of which the true one is kept.
fn courses_part(s: &[u8], at: usize) -> Parsed<Option<ShortDecimal>>
    ensures { Finds s.now at courses (seen short_held) result }
{
    let (course, at) = fields::short_place(s, at)?;
    let at = fields::unit_place(s, at, b'T')?;
    let (_, at) = fields::short_place(s, at)?;
    let at = fields::unit_place(s, at, b'M')?;
    Ok((course, at))
}

// A speed as it is written, the letter of its unit, and the f32 in knots.
#[derive(Clone, Copy)]
pub struct Speed {
    pub written: ShortDecimal,
    pub unit: u8,
    pub knots: f32,
}

// Kilometres an hour in knots: one division, as in the Rust.
fn knots_of(kmh: f32) -> f32
    ensures { result ≡ knots_of kmh }
{
    kmh / 1.852
}

// Knots come first.
fn speed_of(knots: Option<ShortDecimal>, kmh: Option<ShortDecimal>) -> Option<Speed>
    ensures { speed_held result ≡ speed_of (short_held knots) (short_held kmh) }
{
    match (knots, kmh) {
        (Some(written), _) => Some(Speed {
            written,
            unit: b'N',
            knots: written.value,
        }),
        (None, Some(written)) => Some(Speed {
            written,
            unit: b'K',
            knots: knots_of(written.value),
        }),
        (None, None) => None,
    }
}

fn speed_part(s: &[u8], at: usize) -> Parsed<Option<Speed>>
    ensures { Finds s.now at speed (seen speed_held) result }
{
    let (knots, at) = fields::short_place(s, at)?;
    let at = fields::unit_letter(s, at, b'N');
    let (kmh, at) = fields::short_place(s, at)?;
    let at = fields::unit_letter(s, at, b'K');
    Ok((speed_of(knots, kmh), at))
}

// The data of a VTG sentence.
#[derive(Clone, Copy)]
pub struct VtgData {
    pub course: Option<ShortDecimal>,
    pub speed: Option<Speed>,
}

// The whole data of a VTG sentence.
pub fn do_parse_vtg(s: &[u8]) -> Result<VtgData, Fault>
    ensures { valued vtg_data result ≡ value (vtg s.now) }
{
    let (course, at) = courses_part(s, 0)?;
    let (speed, _) = speed_part(s, at)?;
    Ok(VtgData { course, speed })
}
