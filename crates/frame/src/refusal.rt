// Why a text is refused.
ghost use Rattle.std.specs.Prelude.{◌≡◌};
ghost use Rattle.frame.specs.Answer.{number_of, refusal_of};

use std::error::Error;
use std::fmt;
use text::Fault;

// The two bytes that name who sends.
#[derive(Clone, Copy, Debug, PartialEq, Eq)]
pub struct Talker(pub u8, pub u8);

impl fmt::Display for Talker {
    fn fmt<W: fmt::Write>(&self, f: &mut fmt::Formatter<W>) -> fmt::Result {
        write!(f, "{}{}", self.0 as char, self.1 as char)
    }
}

// The three letters of a sentence's type.
#[derive(Clone, Copy, Debug, PartialEq, Eq)]
pub struct Kind(pub u8, pub u8, pub u8);

impl fmt::Display for Kind {
    fn fmt<W: fmt::Write>(&self, f: &mut fmt::Formatter<W>) -> fmt::Result {
        write!(f, "{}{}{}", self.0 as char, self.1 as char, self.2 as char)
    }
}

// Each refusal, with what it carries.
#[derive(Clone, Copy, Debug, PartialEq, Eq)]
pub enum Refusal {
    BadUtf8,
    NotAscii,
    // The length.
    TooLong(usize),
    Syntax,
    UnknownType,
    // The checksum calculated, and the one found.
    Checksum(u8, u8),
    UnknownTalker(Talker),
    // The system's number that the talker names, and the one at the end of the data.
    SystemMismatch(u8, u8),
    Number,
    // The type expected, and the one found.
    WrongHeader(Kind, Kind),
    BadTime,
    // The length.
    LogTooLong(usize),
    // The place.
    BadPlace(usize),
}

impl Refusal {
    // The refusal's number.
    pub fn number(self) -> u32
        ensures { result ≡ number_of self }
    {
        match self {
            Refusal::BadUtf8 => 1,
            Refusal::NotAscii => 2,
            Refusal::TooLong(_) => 3,
            Refusal::Syntax => 4,
            Refusal::UnknownType => 5,
            Refusal::Checksum(_, _) => 6,
            Refusal::UnknownTalker(_) => 7,
            Refusal::SystemMismatch(_, _) => 8,
            Refusal::Number => 9,
            Refusal::WrongHeader(_, _) => 10,
            Refusal::BadTime => 11,
            Refusal::LogTooLong(_) => 12,
            Refusal::BadPlace(_) => 13,
        }
    }
}

// What a reader's fault is at the top: no match is Syntax.
impl From<Fault> for Refusal {
    ghost from_gives = { λ fault refusal. refusal ≡ refusal_of fault };

    fn from(fault: Fault) -> Refusal {
        match fault {
            Fault::NoMatch => Refusal::Syntax,
            Fault::UnknownType => Refusal::UnknownType,
            Fault::Number => Refusal::Number,
            Fault::BadTime => Refusal::BadTime,
        }
    }
}

// For a person: checksums in hexadecimal, as a sentence has them.
impl fmt::Display for Refusal {
    fn fmt<W: fmt::Write>(&self, f: &mut fmt::Formatter<W>) -> fmt::Result {
        match self {
            Refusal::BadUtf8 => write!(f, "not valid UTF-8"),
            Refusal::NotAscii => write!(f, "not ASCII"),
            Refusal::TooLong(length) => write!(f, "a line of {length} bytes"),
            Refusal::Syntax => write!(f, "a part is missing"),
            Refusal::UnknownType => write!(f, "an unknown type"),
            Refusal::Checksum(calculated, found) => write!(
                f,
                "checksum {found:02X}, not {calculated:02X}"
            ),
            Refusal::UnknownTalker(talker) => write!(f, "an unknown talker, {talker}"),
            Refusal::SystemMismatch(talker, tail) => write!(
                f,
                "system {talker} by the talker, {tail} by the data"
            ),
            Refusal::Number => write!(f, "a number that is not plain"),
            Refusal::WrongHeader(expected, found) => write!(f, "type {found}, not {expected}"),
            Refusal::BadTime => write!(f, "a time past its second"),
            Refusal::LogTooLong(length) => write!(f, "a log of {length} bytes"),
            Refusal::BadPlace(place) => write!(f, "no line begins at {place}"),
        }
    }
}

impl Error for Refusal {}
