// A field that may be absent, with the comma after it.
ghost use Rattle.text.specs.Answer.{Finds, seen};
ghost use Rattle.fields.specs.Place.{time_place, date_place, position_place, short_place};
ghost use Rattle.fields.specs.Answer.{time_held, date_held, position_held, short_held};

use crate::date::Day;
use crate::position::Both;
use crate::time::TimeOfDay;
use crate::{date, position, time};
use decimal::ShortDecimal;
use text::Parsed;

// A time.
pub fn time_place(s: &[u8], at: usize) -> Parsed<Option<TimeOfDay>>
    ensures { Finds s.now at time_place (seen time_held) result }
{
    let (time, at) = time::opt_hms(s, at)?;
    let at = text::byte(s, at, b',')?;
    Ok((time, at))
}

// A date.
pub fn date_place(s: &[u8], at: usize) -> Parsed<Option<Day>>
    ensures { Finds s.now at date_place (seen date_held) result }
{
    let (date, at) = date::opt_date(s, at);
    let at = text::byte(s, at, b',')?;
    Ok((date, at))
}

// A position, which may stand anywhere in a sentence.
pub fn position_place(s: &[u8], at: usize) -> Parsed<Option<Both>>
    ensures { Finds s.now at position_place (seen position_held) result }
{
    let (position, at) = position::parse_lat_lon(s, at)?;
    let at = text::byte(s, at, b',')?;
    Ok((position, at))
}

// A short decimal.
pub fn short_place(s: &[u8], at: usize) -> Parsed<Option<ShortDecimal>>
    ensures { Finds s.now at short_place (seen short_held) result }
{
    let (d, at) = decimal::short_decimal(s, at)?;
    let at = text::byte(s, at, b',')?;
    Ok((d, at))
}
