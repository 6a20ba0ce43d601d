// A line's whole answer: framing, then the reader of its type. Every byte string has one.
#![tactic(auto)]

ghost use Rattle.std.specs.Prelude.{◌≡◌, ◌≤◌, length};
ghost use Rattle.text.specs.Bytes.{bytes};
ghost use Rattle.frame.specs.Answer.{letters, parts};
ghost use Rattle.answer.specs.Sentence.{gsv_of, gsa_of, formatter_of, dispatch, answer, parse_as};
ghost use Rattle.sentence.specs.Answer.{formatter, answer_of};

use frame::{Kind, Refusal, Sentence, Talker};
use gga::GgaData;
use gll::GllData;
use gsa::{GsaData, Mismatch};
use gsv::GsvRecord;
use rmc::RmcData;
use vtg::VtgData;

// What a talker sent.
#[derive(Clone, Copy)]
pub struct Message<T> {
    pub talker: Talker,
    pub data: T,
}

// A sentence that was read, or the talker and the name of a known type that we do not read.
#[derive(Clone, Copy)]
pub enum Record {
    Rmc(Message<RmcData>),
    // Its system is settled between talker and tail.
    Gsa(Message<GsaData>),
    Gsv(GsvRecord),
    Gga(Message<GgaData>),
    Gll(Message<GllData>),
    Vtg(Message<VtgData>),
    Other(Talker, Kind),
}

fn gsv_of(s: &[u8], x: Sentence) -> Result<Record, Refusal>
    requires { x.to ≤ length s.now }
    ensures { answer_of result ≡ gsv_of (parts s.now x) }
{
    let Talker(a, b) = x.talker;
    let Some(talker) = gsv::talker_of(a, b) else {
        return Err(Refusal::UnknownTalker(x.talker));
    };
    let data = gsv::do_parse_gsv(x.data(s))?;
    Ok(Record::Gsv(GsvRecord { talker, data }))
}

fn gsa_of(s: &[u8], x: Sentence) -> Result<Record, Refusal>
    requires { x.to ≤ length s.now }
    ensures { answer_of result ≡ gsa_of (parts s.now x) }
{
    let talker = x.talker;
    let data = gsa::do_parse_gsa(x.data(s))?;
    match gsa::settle(talker.0, talker.1, data.system) {
        Ok(system) => Ok(Record::Gsa(Message {
            talker,
            data: gsa::with_system(data, system),
        })),
        Err(Mismatch(named, tail)) => Err(Refusal::SystemMismatch(named, tail)),
    }
}

// The types that we read, and the others.
#[derive(Clone, Copy, Debug, PartialEq, Eq)]
pub enum Formatter {
    Rmc,
    Gsa,
    Gsv,
    Gga,
    Gll,
    Vtg,
    Other,
}

#[tactic(auto, unfolding(answer::specs::Sentence::formatter_of, frame::specs::Types::alike))]
pub fn formatter_of(kind: Kind) -> Formatter
    ensures { formatter result ≡ formatter_of (letters kind) }
{
    match kind {
        Kind(b'R', b'M', b'C') => Formatter::Rmc,
        Kind(b'G', b'S', b'A') => Formatter::Gsa,
        Kind(b'G', b'S', b'V') => Formatter::Gsv,
        Kind(b'G', b'G', b'A') => Formatter::Gga,
        Kind(b'G', b'L', b'L') => Formatter::Gll,
        Kind(b'V', b'T', b'G') => Formatter::Vtg,
        _ => Formatter::Other,
    }
}

// A framed sentence, by its type.
#[tactic(auto, unfolding(answer::specs::Sentence::dispatch))]
fn dispatch(s: &[u8], x: Sentence) -> Result<Record, Refusal>
    requires { x.to ≤ length s.now }
    ensures { answer_of result ≡ dispatch (parts s.now x) }
{
    let talker = x.talker;
    let data = x.data(s);
    match formatter_of(x.kind) {
        Formatter::Rmc => {
            let data = rmc::do_parse_rmc(data)?;
            Ok(Record::Rmc(Message { talker, data }))
        }
        Formatter::Gsa => gsa_of(s, x),
        Formatter::Gsv => gsv_of(s, x),
        Formatter::Gga => {
            let data = gga::do_parse_gga(data)?;
            Ok(Record::Gga(Message { talker, data }))
        }
        Formatter::Gll => {
            let data = gll::do_parse_gll(data)?;
            Ok(Record::Gll(Message { talker, data }))
        }
        Formatter::Vtg => {
            let data = vtg::do_parse_vtg(data)?;
            Ok(Record::Vtg(Message { talker, data }))
        }
        Formatter::Other => Ok(Record::Other(talker, x.kind)),
    }
}

// The answer to any byte string.
#[tactic(auto, using(crate::proofs::Told::framed_within), unfolding(answer::specs::Sentence::answer))]
pub fn parse_bytes(line: &[u8]) -> Result<Record, Refusal>
    ensures { answer_of result ≡ answer line.now }
{
    let x = frame::parse_nmea_sentence(line)?;
    dispatch(line, x)
}

// The answer to a line that must be of one type.
#[tactic(auto, using(crate::proofs::Told::framed_within, crate::proofs::Told::alike_letters), unfolding(answer::specs::Sentence::parse_as))]
fn parse_as(line: &[u8], kind: Kind) -> Result<Record, Refusal>
    ensures { answer_of result ≡ parse_as (letters kind) line.now }
{
    let x = frame::parse_nmea_sentence(line)?;
    if x.kind == kind {
        dispatch(line, x)
    } else {
        Err(Refusal::WrongHeader(kind, x.kind))
    }
}

// The RMC sentence of a line.
pub fn parse_rmc(line: &[u8]) -> Result<Record, Refusal>
    ensures { answer_of result ≡ parse_as (bytes "RMC") line.now }
{
    parse_as(line, Kind(b'R', b'M', b'C'))
}

// The GSA sentence of a line.
pub fn parse_gsa(line: &[u8]) -> Result<Record, Refusal>
    ensures { answer_of result ≡ parse_as (bytes "GSA") line.now }
{
    parse_as(line, Kind(b'G', b'S', b'A'))
}

// The GSV sentence of a line.
pub fn parse_gsv(line: &[u8]) -> Result<Record, Refusal>
    ensures { answer_of result ≡ parse_as (bytes "GSV") line.now }
{
    parse_as(line, Kind(b'G', b'S', b'V'))
}

// The GGA sentence of a line.
pub fn parse_gga(line: &[u8]) -> Result<Record, Refusal>
    ensures { answer_of result ≡ parse_as (bytes "GGA") line.now }
{
    parse_as(line, Kind(b'G', b'G', b'A'))
}

// The GLL sentence of a line.
pub fn parse_gll(line: &[u8]) -> Result<Record, Refusal>
    ensures { answer_of result ≡ parse_as (bytes "GLL") line.now }
{
    parse_as(line, Kind(b'G', b'L', b'L'))
}

// The VTG sentence of a line.
pub fn parse_vtg(line: &[u8]) -> Result<Record, Refusal>
    ensures { answer_of result ≡ parse_as (bytes "VTG") line.now }
{
    parse_as(line, Kind(b'V', b'T', b'G'))
}
