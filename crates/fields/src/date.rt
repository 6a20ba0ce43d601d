// Dates of the Gregorian calendar.
ghost use Rattle.std.specs.Prelude.{◌≡◌, ◌≤◌, Ok};
ghost use Rattle.text.specs.Answer.{Finds, seen};
ghost use Rattle.fields.specs.Date.{leap, thirty, days_in, full_year, date_of, date, opt_date};
ghost use Rattle.fields.specs.Answer.{day_of, date_held};

use text::{Fault, Parsed};

#[derive(Clone, Copy)]
pub struct Day {
    pub year: u32,
    pub month: u32,
    pub day: u32,
}

fn is_leap(year: u32) -> bool
    ensures { result ≡ leap year }
{
    if year % 100 == 0 {
        return year % 400 == 0;
    }
    year % 4 == 0
}

fn has_thirty(month: u32) -> bool
    ensures { result ≡ thirty month }
{
    matches!(month, 4 | 6 | 9 | 11)
}

fn days_in(year: u32, month: u32) -> u32
    ensures { result ≡ days_in year month }
{
    if month == 2 {
        if is_leap(year) {
            return 29;
        }
        return 28;
    }
    if has_thirty(month) {
        return 30;
    }
    31
}

// NMEA 0183 appeared in 1983: from 83 on a year is of the last century.
fn full_year(year: u32) -> u32
    requires { year ≤ 255 }
    ensures { result ≡ full_year year }
{
    if 83 <= year { 1900 + year } else { 2000 + year }
}

// A date, unless the calendar lacks it.
fn on_calendar(day: u32, month: u32, year: u32) -> Option<Day>
    ensures { date_held result ≡ date_of day month year }
{
    if month < 1 {
        return None;
    }
    if 12 < month {
        return None;
    }
    if day < 1 {
        return None;
    }
    if days_in(year, month) < day {
        return None;
    }
    Some(Day {
        year: year,
        month: month,
        day: day,
    })
}

// Day, month and year, two bytes each.
pub fn parse_date(s: &[u8], at: usize) -> Parsed<Day>
    ensures { Finds s.now at date (seen day_of) result }
{
    let (day, at) = text::two(s, at)?;
    let (month, at) = text::two(s, at)?;
    let (year, at) = text::two(s, at)?;
    let Some(date) = on_calendar(day, month, full_year(year)) else {
        return Err(Fault::NoMatch);
    };
    Ok((date, at))
}

// A date, if one stands there.
pub fn opt_date(s: &[u8], at: usize) -> (Option<Day>, usize)
    ensures { Finds s.now at opt_date (seen date_held) (Ok result) }
{
    match parse_date(s, at) {
        Ok((date, next)) => (Some(date), next),
        Err(_) => (None, at),
    }
}
