// The framed sentence as a struct that holds its data, a part of the caller's line.
#![tactic(auto)]

ghost use Rattle.std.specs.Prelude.{◌≡◌};
ghost use Rattle.frame.specs.Frame.{frame};
ghost use Rattle.frame.specs.Answer.{data_of};
ghost use Rattle.held.specs.Calculated.{sum_in};
ghost use Rattle.held.specs.Answer.{sum_of, summed};

use frame::{Kind, Refusal, Sentence, Talker};

#[derive(Clone, Copy, Debug, PartialEq, Eq)]
pub struct NmeaSentence<'a> {
    pub talker: Talker,
    pub kind: Kind,
    pub checksum: u8,
    // Up to the `*`.
    pub data: &'a [u8],
}

// The exclusive or of talker, type, comma and data.
pub fn sum_of(talker: Talker, kind: Kind, text: &[u8]) -> u8
    ensures { result ≡ sum_of talker kind text.now }
{
    let head = talker.0 ^ talker.1 ^ kind.0 ^ kind.1 ^ kind.2 ^ b',';
    head ^ frame::checksum(text, 0, text.len())
}

// A sentence that framing found in the line.
pub fn nmea_sentence<'a>(line: &'a [u8], framed: Sentence) -> NmeaSentence<'a>
    ensures talker { result.talker ≡ framed.talker }
    ensures kind { result.kind ≡ framed.kind }
    ensures checksum { result.checksum ≡ framed.checksum }
    ensures text { result.data.now ≡ data_of framed line.now }
{
    NmeaSentence {
        talker: framed.talker,
        kind: framed.kind,
        checksum: framed.checksum,
        data: framed.data(line),
    }
}

impl<'a> NmeaSentence<'a> {
    // The data handed back.
    pub fn data(self) -> &'a [u8]
        ensures part { result ≡ self.entry.data }
        ensures unchanged { self.exit.data.now ≡ self.entry.data.now }
    {
        self.data
    }

    // What the checksum should be.
    pub fn calc_checksum(self) -> u8
        ensures sum { result ≡ sum_of self.entry.talker self.entry.kind self.entry.data.now }
        ensures unchanged { self.exit.data.now ≡ self.entry.data.now }
    {
        sum_of(self.talker, self.kind, self.data)
    }
}

// The same of a line and its sentence: for callers that have a plain slice.
pub fn line_checksum(line: &[u8], framed: Sentence) -> u8
    ensures { result ≡ sum_of framed.talker framed.kind (data_of framed line.now) }
{
    nmea_sentence(line, framed).calc_checksum()
}

// What any line's checksum should be, or why the line is refused.
#[tactic(auto, using(crate::proofs::Told::told_is))]
pub fn calculate(line: &[u8]) -> Result<u8, Refusal>
    ensures { summed result ≡ sum_in (frame line.now) }
{
    let framed = frame::parse_nmea_sentence(line)?;
    Ok(line_checksum(line, framed))
}
