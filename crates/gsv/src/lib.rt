// GSV, satellites in view: its talkers with their systems, and the reader of its data.
// The data: sentences of the group, which of them this is, satellites in view, and four entries.
#![tactic(auto)]

ghost use Rattle.std.specs.Prelude.{◌≡◌, Ok, drop};
ghost use Rattle.text.specs.Reader.{opt};
ghost use Rattle.text.specs.Value.{is, value};
ghost use Rattle.text.specs.Answer.{Finds, next, itself, seen, held, held_as, valued};
ghost use Rattle.gsv.specs.Talker.{talker_of, letters_of, system_of, system_number};
ghost use Rattle.gsv.specs.Gsv.{closing, counted, cell, entry, head, with_entries, gsv};
ghost use Rattle.gsv.specs.Answer.{talker, gnss, satellite, slot, head_of, gsv_data};

use text::{Fault, Parsed};

// The most that a line can say: of n, number and in-view count, of a satellite's number, and of the rest of an entry.
pub const COUNT_MAX: u32 = 65535;

pub const ID_MAX: u32 = 4294967295;

pub const PLACE_MAX: u32 = 2147483647;

// The talkers of GSV.
#[derive(Clone, Copy, Debug, PartialEq, Eq)]
pub enum GsvTalker {
    Ga,
    Gp,
    Gl,
    Bd,
    Gb,
    Gi,
    Gq,
    Pq,
    Qz,
}

// The talker that two letters are, if they are one.
#[tactic(auto, unfolding(crate::specs::Talker::row_for))]
pub fn talker_of(a: u8, b: u8) -> Option<GsvTalker>
    ensures { held_as talker result ≡ talker_of a b }
{
    match (a, b) {
        (b'G', b'A') => Some(GsvTalker::Ga),
        (b'G', b'P') => Some(GsvTalker::Gp),
        (b'G', b'L') => Some(GsvTalker::Gl),
        (b'B', b'D') => Some(GsvTalker::Bd),
        (b'G', b'B') => Some(GsvTalker::Gb),
        (b'G', b'I') => Some(GsvTalker::Gi),
        (b'G', b'Q') => Some(GsvTalker::Gq),
        (b'P', b'Q') => Some(GsvTalker::Pq),
        (b'Q', b'Z') => Some(GsvTalker::Qz),
        _ => None,
    }
}

// A talker's two letters.
pub fn letters_of(t: GsvTalker) -> [u8; 2]
    ensures { result ≡ letters_of (talker t) }
{
    match t {
        GsvTalker::Ga => *b"GA",
        GsvTalker::Gp => *b"GP",
        GsvTalker::Gl => *b"GL",
        GsvTalker::Bd => *b"BD",
        GsvTalker::Gb => *b"GB",
        GsvTalker::Gi => *b"GI",
        GsvTalker::Gq => *b"GQ",
        GsvTalker::Pq => *b"PQ",
        GsvTalker::Qz => *b"QZ",
    }
}

// The system that satellites belong to.
#[derive(Clone, Copy, Debug, PartialEq, Eq)]
pub enum GnssType {
    Gps,
    Glonass,
    Galileo,
    Beidou,
    Qzss,
    NavIC,
}

// The system that a talker names.
pub fn gnss_type(t: GsvTalker) -> GnssType
    ensures { gnss result ≡ system_of (talker t) }
{
    match t {
        GsvTalker::Ga => GnssType::Galileo,
        GsvTalker::Gp => GnssType::Gps,
        GsvTalker::Gl => GnssType::Glonass,
        GsvTalker::Bd => GnssType::Beidou,
        GsvTalker::Gb => GnssType::Beidou,
        GsvTalker::Gi => GnssType::NavIC,
        GsvTalker::Gq => GnssType::Qzss,
        GsvTalker::Pq => GnssType::Qzss,
        GsvTalker::Qz => GnssType::Qzss,
    }
}

// The number of a system.
pub fn system_number(g: GnssType) -> u32
    ensures { result ≡ system_number (gnss g) }
{
    match g {
        GnssType::Gps => 1,
        GnssType::Glonass => 2,
        GnssType::Galileo => 3,
        GnssType::Beidou => 4,
        GnssType::Qzss => 5,
        GnssType::NavIC => 6,
    }
}

// A closing comma, unless the data ends.
fn closing(s: &[u8], at: usize) -> Result<usize, Fault>
    ensures { Finds s.now at closing next result }
{
    if s.len() <= at {
        return Ok(at);
    }
    text::byte(s, at, b',')
}

// A number with its comma.
fn counted(s: &[u8], at: usize, max: u32) -> Parsed<u32>
    ensures { Finds s.now at (counted max) itself result }
{
    let (v, at) = text::number(s, at, max)?;
    let at = text::byte(s, at, b',')?;
    Ok((v, at))
}

// A number that may be absent, with its comma.
fn in_cell(s: &[u8], at: usize, max: u32) -> Parsed<Option<u32>>
    ensures { Finds s.now at (cell max) (seen held) result }
{
    let (v, at) = text::opt_number(s, at, max);
    let at = text::byte(s, at, b',')?;
    Ok((v, at))
}

// A satellite in view.
#[derive(Clone, Copy)]
pub struct SatInfo {
    pub id: u32,
    pub elevation: Option<u32>,
    pub azimuth: Option<u32>,
    pub signal: Option<u32>,
}

// One entry: the satellite, and elevation, azimuth and signal, each of which may be absent.
fn parse_gsv_sat_info(s: &[u8], at: usize) -> Parsed<SatInfo>
    ensures { Finds s.now at entry (seen satellite) result }
{
    let (id, at) = counted(s, at, ID_MAX)?;
    let (elevation, at) = in_cell(s, at, PLACE_MAX)?;
    let (azimuth, at) = in_cell(s, at, PLACE_MAX)?;
    let (signal, at) = text::opt_number(s, at, PLACE_MAX);
    let at = closing(s, at)?;
    let seen = SatInfo {
        id,
        elevation,
        azimuth,
        signal,
    };
    Ok((seen, at))
}

// An entry, if one stands there.
fn opt_entry(s: &[u8], at: usize) -> (Option<SatInfo>, usize)
    ensures { Finds s.now at (opt entry) (seen slot) (Ok result) }
{
    match parse_gsv_sat_info(s, at) {
        Ok((t, next)) => (Some(t), next),
        Err(_) => (None, at),
    }
}

// Sentences of the group, which of them this is, and satellites in view: what stands in front of the entries.
#[derive(Clone, Copy)]
pub struct GsvHead {
    pub count: u32,
    pub index: u32,
    pub view: u32,
}

// What stands in front of the entries, and the place of the first. No entry makes a sentence fail, so it alone decides whether one is
// accepted.
pub fn do_parse_head(s: &[u8]) -> Parsed<GsvHead>
    ensures { Finds s.now 0 head (seen head_of) result }
{
    let (count, at) = counted(s, 0, COUNT_MAX)?;
    let (index, at) = counted(s, at, COUNT_MAX)?;
    let (view, at) = counted(s, at, COUNT_MAX)?;
    let head = GsvHead { count, index, view };
    Ok((head, at))
}

// The data of a GSV sentence.
#[derive(Clone, Copy)]
pub struct GsvData {
    pub count: u32,
    pub index: u32,
    pub view: u32,
    pub first: Option<SatInfo>,
    pub second: Option<SatInfo>,
    pub third: Option<SatInfo>,
    pub fourth: Option<SatInfo>,
}

// A head with the entries that stand at a place; what follows the fourth is ignored.
pub fn with_entries(s: &[u8], at: usize, h: GsvHead) -> GsvData
    ensures { is (gsv_data result) ≡ value (with_entries (head_of h) (drop at s.now)) }
{
    let (first, at) = opt_entry(s, at);
    let (second, at) = opt_entry(s, at);
    let (third, at) = opt_entry(s, at);
    let (fourth, _) = opt_entry(s, at);
    GsvData {
        count: h.count,
        index: h.index,
        view: h.view,
        first,
        second,
        third,
        fourth,
    }
}

// The whole data of a GSV sentence.
pub fn do_parse_gsv(s: &[u8]) -> Result<GsvData, Fault>
    ensures { valued gsv_data result ≡ value (gsv s.now) }
{
    let (h, at) = do_parse_head(s)?;
    Ok(with_entries(s, at, h))
}

// A GSV sentence: one of its talkers, and the data.
#[derive(Clone, Copy)]
pub struct GsvRecord {
    pub talker: GsvTalker,
    pub data: GsvData,
}
