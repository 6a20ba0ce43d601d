// The readers, and how a case runs each.
use crate::answer::{Answer, Refused};
use frame::{Kind, Sentence, Talker};
use std::io;

#[derive(Clone, Copy, Debug, PartialEq, Eq)]
pub(crate) enum Reader {
    Utf8,
    Two,
    Three,
    Number,
    ShortDecimal,
    LongDecimal,
    PowerOfTen,
    Time,
    Date,
    Position,
    Variation,
    Checksum,
    Range,
}

// No reader's name begins so.
#[derive(Clone, Copy, Debug, PartialEq, Eq)]
pub(crate) struct UnknownReader;

// A reader by the first byte of its name.
impl TryFrom<u8> for Reader {
    type Error = UnknownReader;

    fn try_from(name: u8) -> Result<Reader, UnknownReader> {
        match name {
            b'u' => Ok(Reader::Utf8),
            b'2' => Ok(Reader::Two),
            b'3' => Ok(Reader::Three),
            b'n' => Ok(Reader::Number),
            b's' => Ok(Reader::ShortDecimal),
            b'l' => Ok(Reader::LongDecimal),
            b'1' => Ok(Reader::PowerOfTen),
            b't' => Ok(Reader::Time),
            b'd' => Ok(Reader::Date),
            b'p' => Ok(Reader::Position),
            b'v' => Ok(Reader::Variation),
            b'c' => Ok(Reader::Checksum),
            b'r' => Ok(Reader::Range),
            _ => Err(UnknownReader),
        }
    }
}

impl Reader {
    // Prints what the reader answers of a text. The number is the place to read at; of `Number` the most that it may read, of
    // `PowerOfTen` the power, of `Range` where the data end.
    pub(crate) fn answer(self, rt: &impl Print, number: u32, text: &[u8]) -> io::Result<()> {
        let at = number as usize;
        match self {
            Reader::Utf8 => rt.print(u32::from(utf8::is_utf8(text))),
            Reader::Two => rt.print(Answer(text::two(text, at))),
            Reader::Three => rt.print(Answer(text::three(text, at))),
            Reader::Number => rt.print(Answer(text::number(text, 0, number))),
            Reader::ShortDecimal => rt.print(Answer(decimal::short_decimal(text, at))),
            Reader::LongDecimal => rt.print(Answer(decimal::long_decimal(text, at))),
            Reader::PowerOfTen => rt.print(decimal::pow10(number)),
            Reader::Time => rt.print(Answer(fields::opt_hms(text, at))),
            Reader::Date => rt.print(Answer(Ok(fields::opt_date(text, at)))),
            Reader::Position => rt.print(Answer(fields::parse_lat_lon(text, at))),
            Reader::Variation => rt.print(Answer(fields::parse_magnetic_variation(text, at))),
            Reader::Checksum => match held::calculate(text) {
                Ok(sum) => rt.print(sum),
                Err(why) => rt.print(Refused(why)),
            },
            // The checksum of a GP GSA sentence whose data are the line's from its eighth byte up to the place.
            Reader::Range => {
                let sentence = Sentence::new(Talker(b'G', b'P'), Kind(b'G', b'S', b'A'), 0, 7, at);
                rt.print(held::line_checksum(text, sentence))
            }
        }
    }
}
