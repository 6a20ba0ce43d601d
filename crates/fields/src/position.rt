// Latitude and longitude.
ghost use Rattle.std.specs.Prelude.{◌≡◌, ◌<◌, nat_abs};
ghost use Rattle.text.specs.Answer.{Finds, next, seen};
ghost use Rattle.decimal.specs.Places.{turned};
ghost use Rattle.decimal.specs.Answer.{a_long};
ghost use Rattle.fields.specs.Position.{billionths_of, degrees_of, position_of, side, latitude, longitude, do_lat_lon, commas, lat_lon};
ghost use Rattle.fields.specs.Answer.{coordinate, both, position_held};

use decimal::LongDecimal;
use text::{Fault, Parsed};

// A signed count of billionths of a minute, its letter, and the f64 in degrees.
#[derive(Clone, Copy)]
pub struct Coordinate {
    pub count: i64,
    pub letter: u8,
    pub degrees: f64,
}

// `z`, negated where `minus` says so.
fn turned_count(z: i64, minus: bool) -> i64
    requires { nat_abs z < 100000000000000 }
    ensures { result ≡ turned z minus }
{
    if minus { -z } else { z }
}

// Degrees and minutes in billionths of a minute, which minutes below zero count against.
fn billionths_of(deg: u8, m: LongDecimal) -> i64
    requires { m.billionths < 1000000000000 }
    ensures { result ≡ billionths_of deg (a_long m) }
{
    let degrees = (deg as u64) * 60000000000;
    let minutes = turned_count(m.billionths as i64, m.minus);
    (degrees as i64) + minutes
}

// Degrees and minutes in degrees: each operation rounds, as in the Rust.
fn degrees_of(deg: u8, minutes: f64, minus: bool) -> f64
    ensures { result ≡ degrees_of deg minutes minus }
{
    let d = (deg as f64) + minutes / 60.0;
    if minus { -d } else { d }
}

// A coordinate on the side that `minus` says.
fn located(deg: u8, m: LongDecimal, letter: u8, minus: bool) -> Coordinate
    requires { m.billionths < 1000000000000 }
    ensures { coordinate result ≡ position_of deg (a_long m) letter minus }
{
    let count = turned_count(billionths_of(deg, m), minus);
    let degrees = degrees_of(deg, m.value, minus);
    Coordinate {
        count: count,
        letter: letter,
        degrees: degrees,
    }
}

// Minutes, a comma and one of two letters, of which the second negates.
fn side(s: &[u8], at: usize, plus: u8, minus: u8, deg: u8) -> Parsed<Coordinate>
    ensures { Finds s.now at (side plus minus deg) (seen coordinate) result }
{
    let (minutes, at) = decimal::long_decimal(s, at)?;
    let minutes = minutes.ok_or(Fault::NoMatch)?;
    let at = text::byte(s, at, b',')?;
    let (letter, at) = text::one_of(s, at, plus, minus)?;
    Ok((located(deg, minutes, letter, letter == minus), at))
}

// Two bytes of degrees, minutes, N or S.
fn latitude(s: &[u8], at: usize) -> Parsed<Coordinate>
    ensures { Finds s.now at latitude (seen coordinate) result }
{
    let (deg, at) = text::two(s, at)?;
    side(s, at, b'N', b'S', deg as u8)
}

// Three bytes of degrees, minutes, E or W.
fn longitude(s: &[u8], at: usize) -> Parsed<Coordinate>
    ensures { Finds s.now at longitude (seen coordinate) result }
{
    let (deg, at) = text::three(s, at)?;
    side(s, at, b'E', b'W', deg as u8)
}

// Latitude and longitude.
#[derive(Clone, Copy)]
pub struct Both {
    pub lat: Coordinate,
    pub lon: Coordinate,
}

// All four parts: latitude, its letter, longitude, its letter.
pub fn do_parse_lat_lon(s: &[u8], at: usize) -> Parsed<Both>
    ensures { Finds s.now at do_lat_lon (seen both) result }
{
    let (lat, at) = latitude(s, at)?;
    let at = text::byte(s, at, b',')?;
    let (lon, at) = longitude(s, at)?;
    Ok((Both { lat: lat, lon: lon }, at))
}

// Three commas.
fn commas(s: &[u8], at: usize) -> Result<usize, Fault>
    ensures { Finds s.now at commas next result }
{
    let at = text::byte(s, at, b',')?;
    let at = text::byte(s, at, b',')?;
    text::byte(s, at, b',')
}

// Exactly three commas, or all four parts.
pub fn parse_lat_lon(s: &[u8], at: usize) -> Parsed<Option<Both>>
    ensures { Finds s.now at lat_lon (seen position_held) result }
{
    if let Ok(at) = commas(s, at) {
        return Ok((None, at));
    }
    let (both, at) = do_parse_lat_lon(s, at)?;
    Ok((Some(both), at))
}
