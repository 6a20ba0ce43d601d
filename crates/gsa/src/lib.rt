// The data of a GSA sentence: mode, fix, the satellites in use, their dilutions of precision, the system; and the rule
// that settles the system between talker and tail.
#![tactic(auto)]

ghost use Rattle.std.specs.Prelude.{◌≡◌, Ok};
ghost use Rattle.text.specs.Bytes.{byte};
ghost use Rattle.text.specs.Answer.{Finds, next, itself, seen, held, valued};
ghost use Rattle.text.specs.Many.{take_while1, one_of3};
ghost use Rattle.text.specs.Reader.{alt};
ghost use Rattle.text.specs.Value.{value};
ghost use Rattle.decimal.specs.Answer.{a_short};
ghost use Rattle.gsa.specs.System.{known, named, settle};
ghost use Rattle.gsa.specs.Gsa.{last_system, empty_tail, item, prn_fields, dop, dops, after_comma, opt_system, full_tail, gsa};
ghost use Rattle.gsa.specs.Answer.{satellites_of, three_dops, tail_of, gsa_of, settled};

mod satellites;

use decimal::ShortDecimal;
pub use satellites::{SATELLITES, Satellites};
use text::{Fault, Parsed};

// The systems by their numbers.
const GPS: u8 = 1;

const GLONASS: u8 = 2;

const GALILEO: u8 = 3;

const BEIDOU: u8 = 4;

// The largest numbers of an item and of a system.
const ITEM_MAX: u32 = 4294967295;

const SYSTEM_MAX: u32 = 255;

// Dilutions of precision: in space, on the ground, in height.
#[derive(Clone, Copy)]
pub struct Dops {
    pub pdop: ShortDecimal,
    pub hdop: ShortDecimal,
    pub vdop: ShortDecimal,
}

// What stands after mode and fix.
#[derive(Clone, Copy)]
struct Tail {
    satellites: Satellites,
    dops: Option<Dops>,
    system: Option<u8>,
}

// The data of a GSA sentence but for the satellites.
#[derive(Clone, Copy)]
pub struct GsaHead {
    pub mode: u8,
    pub fix: u8,
    pub dops: Option<Dops>,
    pub system: Option<u8>,
}

// The data of a GSA sentence. Mode and fix are bytes as they stand: M or A, and 1, 2 or 3.
#[derive(Clone, Copy)]
pub struct GsaData {
    pub mode: u8,
    pub fix: u8,
    pub satellites: Satellites,
    pub dops: Option<Dops>,
    pub system: Option<u8>,
}

// Two systems that differ: the talker's and the tail's.
#[derive(Clone, Copy, Debug, PartialEq, Eq)]
pub struct Mismatch(pub u8, pub u8);

// A number that is that of a system.
fn known(n: u32) -> Option<u8>
    ensures { held result ≡ known n }
{
    if n < u32::from(GPS) || u32::from(BEIDOU) < n {
        None
    } else {
        Some(n as u8)
    }
}

// One or more commas.
fn commas(s: &[u8], at: usize) -> Result<usize, Fault>
    ensures { Finds s.now at (take_while1 (byte ",")) next result }
{
    let first = text::byte(s, at, b',')?;
    for i in first..s.len() {
        if s[i] != b',' {
            return Ok(i);
        }
    }
    Ok(s.len())
}

// Nothing or a system's number, up to the end.
fn last_system(s: &[u8], at: usize) -> Parsed<Option<u8>>
    ensures { Finds s.now at last_system (seen held) result }
{
    let (n, at) = text::opt_number(s, at, SYSTEM_MAX);
    if at < s.len() {
        return Err(Fault::NoMatch);
    }
    Ok((n.and_then(known), at))
}

// The tail of a sentence with no satellites and no dilutions: commas, and a system's number perhaps.
fn empty_tail(s: &[u8], at: usize) -> Parsed<Tail>
    ensures { Finds s.now at empty_tail (seen tail_of) result }
{
    let at = commas(s, at)?;
    let (system, at) = last_system(s, at)?;
    let satellites = Satellites {
        items: [0; SATELLITES],
        count: 0,
    };
    let tail = Tail {
        satellites,
        dops: None,
        system,
    };
    Ok((tail, at))
}

// An item: an optional number and a comma. Whether it is empty is asked first.
fn prn_field(s: &[u8], at: usize) -> Parsed<Option<u32>>
    ensures { Finds s.now at item (seen held) result }
{
    if let Ok(next) = text::byte(s, at, b',') {
        return Ok((None, next));
    }
    let (n, at) = text::number(s, at, ITEM_MAX)?;
    let at = text::byte(s, at, b',')?;
    Ok((Some(n), at))
}

// Items while they match. Of the first 18 the filled ones are kept.
fn prn_fields(s: &[u8], at: usize) -> (Satellites, usize)
    ensures { Finds s.now at prn_fields (seen satellites_of) (Ok result) }
{
    let mut items = [0; SATELLITES];
    let mut count = 0;
    let mut passed = 0;
    let mut i = at;
    while let Ok((item, next)) = prn_field(s, i) {
        i = next;
        if passed == SATELLITES {
            continue;
        }
        passed += 1;
        let Some(n) = item else {
            continue;
        };
        items[count] = n;
        count += 1;
    }
    let satellites = Satellites { items, count };
    (satellites, i)
}

// A short decimal that is not absent.
fn dop(s: &[u8], at: usize) -> Parsed<ShortDecimal>
    ensures { Finds s.now at dop (seen a_short) result }
{
    let (d, at) = decimal::short_decimal(s, at)?;
    match d {
        Some(d) => Ok((d, at)),
        None => Err(Fault::NoMatch),
    }
}

// Three of them, commas between.
fn three_dops(s: &[u8], at: usize) -> Parsed<Dops>
    ensures { Finds s.now at dops (seen three_dops) result }
{
    let (pdop, at) = dop(s, at)?;
    let at = text::byte(s, at, b',')?;
    let (hdop, at) = dop(s, at)?;
    let at = text::byte(s, at, b',')?;
    let (vdop, at) = dop(s, at)?;
    let dops = Dops { pdop, hdop, vdop };
    Ok((dops, at))
}

// A comma and a system's number.
fn after_comma(s: &[u8], at: usize) -> Parsed<u32>
    ensures { Finds s.now at after_comma itself result }
{
    let at = text::byte(s, at, b',')?;
    text::number(s, at, SYSTEM_MAX)
}

// The system of such a number, if both stand there.
fn opt_system(s: &[u8], at: usize) -> (Option<u8>, usize)
    ensures { Finds s.now at opt_system (seen held) (Ok result) }
{
    match after_comma(s, at) {
        Ok((n, end)) => (known(n), end),
        Err(_) => (None, at),
    }
}

// Items, three dilutions, and a system perhaps.
fn full_tail(s: &[u8], at: usize) -> Parsed<Tail>
    ensures { Finds s.now at full_tail (seen tail_of) result }
{
    let (satellites, at) = prn_fields(s, at);
    let (dops, at) = three_dops(s, at)?;
    let (system, at) = opt_system(s, at);
    let tail = Tail {
        satellites,
        dops: Some(dops),
        system,
    };
    Ok((tail, at))
}

// The empty tail, or else the full one.
fn either_tail(s: &[u8], at: usize) -> Parsed<Tail>
    ensures { Finds s.now at (alt empty_tail full_tail) (seen tail_of) result }
{
    match empty_tail(s, at) {
        Ok(found) => Ok(found),
        Err(_) => full_tail(s, at),
    }
}

// One of the digits 1, 2 and 3.
fn fix(s: &[u8], at: usize) -> Parsed<u8>
    ensures { Finds s.now at (one_of3 (byte "1") (byte "2") (byte "3")) itself result }
{
    match s.get(at) {
        Some(&b) if b'1' <= b && b <= b'3' => Ok((b, at + 1)),
        _ => Err(Fault::NoMatch),
    }
}

// The data of a GSA sentence: what stands between the comma after its type and the `*`.
pub fn do_parse_gsa(s: &[u8]) -> Result<GsaData, Fault>
    ensures { valued gsa_of result ≡ value (gsa s.now) }
{
    let (mode, at) = text::one_of(s, 0, b'M', b'A')?;
    let at = text::byte(s, at, b',')?;
    let (fix, at) = fix(s, at)?;
    let at = text::byte(s, at, b',')?;
    let (tail, _) = either_tail(s, at)?;
    Ok(GsaData {
        mode,
        fix,
        satellites: tail.satellites,
        dops: tail.dops,
        system: tail.system,
    })
}

// The system that a talker names.
fn named(a: u8, b: u8) -> Option<u8>
    ensures { held result ≡ named a b }
{
    match (a, b) {
        (b'G', b'A') => Some(GALILEO),
        (b'G', b'P') => Some(GPS),
        (b'G', b'L') => Some(GLONASS),
        (b'B', b'D') => Some(BEIDOU),
        (b'G', b'B') => Some(BEIDOU),
        _ => None,
    }
}

// The system of a sentence, by its talker's two bytes and the system in its tail.
pub fn settle(a: u8, b: u8, tail: Option<u8>) -> Result<Option<u8>, Mismatch>
    ensures { settled result ≡ settle (named a b) (held tail) }
{
    match (named(a, b), tail) {
        (Some(m), Some(n)) if m != n => Err(Mismatch(m, n)),
        (None, _) => Ok(tail),
        (talker, _) => Ok(talker),
    }
}

// A record whose system is settled.
pub fn with_system(g: GsaData, system: Option<u8>) -> GsaData
    ensures { result ≡ record g { system = system } }
{
    GsaData { system, ..g }
}
