// The framing of a line, part by part.
ghost use Rattle.std.specs.Prelude.{◌≡◌, IfSome};
ghost use Rattle.std.proofs.Math.Seq.{slice};
ghost use Rattle.text.specs.Answer.{Finds};
ghost use Rattle.frame.specs.Checksum.{checksum};
ghost use Rattle.frame.specs.Frame.{taken, sentence_type, sentence, compared, sized, frame, data_in};
ghost use Rattle.frame.specs.Answer.{letters, talker_at, kind_at, read, parts, framed};
ghost use Rattle.frame.specs.Code.{Headed};

use crate::pass::one_pass;
use crate::refusal::{Kind, Refusal, Talker};
use crate::sentence::{Sentence, known};
use crate::star::star;
use crate::sum::{checksum, checksum_field};
use text::Fault;

// Where the data begin, after `$`, talker, type and comma.
const DATA: usize = 7;

// The length of a sentence that has no data.
const SHORTEST: usize = 10;

// Two bytes of any kind.
fn talker(s: &[u8], at: usize) -> Result<Talker, Fault>
    ensures { Finds s.now at (taken 2) (talker_at at) result }
{
    let [a, b, ..] = s.get(at..).unwrap_or(&[]) else {
        return Err(Fault::NoMatch);
    };
    Ok(Talker(*a, *b))
}

// Three bytes, which are a known type.
fn sentence_type(s: &[u8], at: usize) -> Result<Kind, Fault>
    ensures { Finds s.now at sentence_type (kind_at at) result }
{
    let [a, b, c, ..] = s.get(at..).unwrap_or(&[]) else {
        return Err(Fault::NoMatch);
    };
    let kind = Kind(*a, *b, *c);
    if known(kind) {
        return Ok(kind);
    }
    Err(Fault::UnknownType)
}

// A sentence whose checksum is not compared yet, from the start of a line:
//
//     0 1  3   6 7       to
//     $ GP GSA , A,1,,,, * 32
fn sentence(s: &[u8]) -> Result<Sentence, Fault>
    ensures { Finds s.now 0 sentence (read s.now) result }
{
    text::byte(s, 0, b'$')?;
    let talker = talker(s, 1)?;
    let kind = sentence_type(s, 3)?;
    text::byte(s, 6, b',')?;
    let to = star(s, DATA)?;
    let found = checksum_field(s, to)?;
    Ok(Sentence::new(talker, kind, found, DATA, to))
}

// A sentence's checksum, against what the bytes between `$` and `*` come to.
fn compared(s: &[u8], x: Sentence) -> Result<Sentence, Refusal>
    ensures { framed s.now result ≡ compared (checksum (slice 1 x.to s.now)) (parts s.now x) }
{
    let calculated = checksum(s, 1, x.to);
    if calculated == x.checksum {
        return Ok(x);
    }
    Err(Refusal::Checksum(calculated, x.checksum))
}

// The frame of a line that is ASCII.
fn sized(s: &[u8]) -> Result<Sentence, Refusal>
    ensures { framed s.now result ≡ sized s.now }
{
    let n = s.len();
    if Sentence::MAX_LEN < n {
        return Err(Refusal::TooLong(n));
    }
    let x = sentence(s)?;
    compared(s, x)
}

// The frame of any line, check by check. An ASCII text is valid UTF-8, so a line that is ASCII is asked no more.
fn checked(s: &[u8]) -> Result<Sentence, Refusal>
    ensures { framed s.now result ≡ frame s.now }
{
    if utf8::is_ascii(s) {
        return sized(s);
    }
    if utf8::is_utf8(s) {
        return Err(Refusal::NotAscii);
    }
    Err(Refusal::BadUtf8)
}

// The quick way of a line that begins with `$` and a known type: its frame, or none where the line has to be checked. Where its checksum
// ends it, one pass tells the rest.
fn passed(s: &[u8], kind: Kind) -> Option<Result<Sentence, Refusal>>
    requires { Headed s.now (letters kind) }
    ensures { IfSome result (λ x. framed s.now x ≡ frame s.now) }
{
    if s[6] != b',' {
        return None;
    }
    let to = s.len() - 3;
    let Ok(found) = checksum_field(s, to) else {
        return None;
    };
    let x = one_pass(s, to);
    if x.star {
        return None;
    }
    if 127 < x.top {
        return None;
    }
    if x.sum == found {
        let talker = Talker(s[1], s[2]);
        return Some(Ok(Sentence::new(talker, kind, found, DATA, to)));
    }
    Some(Err(Refusal::Checksum(x.sum, found)))
}

// The quick way: a line that ends with its checksum is gone through once, and an unknown type is answered at once. Behind more tests than
// these the compiler takes the call of `passed` for a cold one, and does not inline it.
fn quickly(s: &[u8]) -> Option<Result<Sentence, Refusal>>
    ensures { IfSome result (λ x. framed s.now x ≡ frame s.now) }
{
    let len = s.len();
    if len < SHORTEST {
        return None;
    }
    if Sentence::MAX_LEN < len {
        return None;
    }
    if s[0] != b'$' {
        return None;
    }
    let kind = Kind(s[3], s[4], s[5]);
    if known(kind) {
        return passed(s, kind);
    }
    if !utf8::is_ascii(s) {
        return None;
    }
    Some(Err(Refusal::UnknownType))
}

// The frame of any line. The checks have one call, so that a line which needs none of them goes on without their memory.
pub fn parse_nmea_sentence(s: &[u8]) -> Result<Sentence, Refusal>
    ensures { framed s.now result ≡ frame s.now }
{
    match quickly(s) {
        None => checked(s),
        Some(answer) => answer,
    }
}

// The data of a line, a part of it; an empty part where the line is refused.
pub fn data_of(line: &[u8]) -> &[u8]
    ensures { result.now ≡ data_in (frame line.now) }
{
    match parse_nmea_sentence(line) {
        Ok(x) => x.data(line),
        Err(_) => &[],
    }
}
