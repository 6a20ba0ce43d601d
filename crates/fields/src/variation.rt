// The magnetic variation.
ghost use Rattle.std.specs.Prelude.{◌≡◌, ◌<◌, nat_abs};
ghost use Rattle.text.specs.Answer.{Finds, seen};
ghost use Rattle.decimal.specs.Answer.{a_short};
ghost use Rattle.fields.specs.Variation.{variation_of, do_variation, variation};
ghost use Rattle.fields.specs.Answer.{short_held};

use decimal::ShortDecimal;
use text::{Fault, Parsed};

// A decimal, negated for west: zero west is minus zero.
fn turned(d: ShortDecimal, west: bool) -> ShortDecimal
    requires { nat_abs d.whole < 10000000 }
    ensures { a_short result ≡ variation_of (a_short d) west }
{
    if west {
        ShortDecimal {
            whole: -d.whole,
            decimals: d.decimals,
            value: -d.value,
        }
    } else {
        d
    }
}

// A short decimal, a comma and E or W.
pub fn do_parse_magnetic_variation(s: &[u8], at: usize) -> Parsed<ShortDecimal>
    ensures { Finds s.now at do_variation (seen a_short) result }
{
    let (d, at) = decimal::short_decimal(s, at)?;
    let d = d.ok_or(Fault::NoMatch)?;
    let at = text::byte(s, at, b',')?;
    let (letter, at) = text::one_of(s, at, b'E', b'W')?;
    Ok((turned(d, letter == b'W'), at))
}

// A comma at once, of which only that comma is eaten, or a variation.
pub fn parse_magnetic_variation(s: &[u8], at: usize) -> Parsed<Option<ShortDecimal>>
    ensures { Finds s.now at variation (seen short_held) result }
{
    if let Ok(at) = text::byte(s, at, b',') {
        return Ok((None, at));
    }
    let (variation, at) = do_parse_magnetic_variation(s, at)?;
    Ok((Some(variation), at))
}
