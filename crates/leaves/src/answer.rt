// A reader's whole answer, in words and numbers: what it read, a letter by its number, and the next place.
use decimal::{LongDecimal, ShortDecimal};
use fields::{Both, Coordinate, Day, TimeOfDay};
use frame::Refusal;
use std::fmt;
use text::{Fault, Parsed};

// A value in words, each with a space behind it. A float is told by its bits.
pub(crate) trait Words {
    fn write<W: fmt::Write>(&self, f: &mut fmt::Formatter<W>) -> fmt::Result;
}

impl Words for u32 {
    fn write<W: fmt::Write>(&self, f: &mut fmt::Formatter<W>) -> fmt::Result {
        write!(f, "{self} ")
    }
}

impl Words for ShortDecimal {
    fn write<W: fmt::Write>(&self, f: &mut fmt::Formatter<W>) -> fmt::Result {
        let bits = decimal::bits_f32(self.value);
        write!(f, "{} {} {bits:08x} ", self.whole, self.decimals)
    }
}

impl Words for LongDecimal {
    fn write<W: fmt::Write>(&self, f: &mut fmt::Formatter<W>) -> fmt::Result {
        let sign = if self.minus { "-" } else { "" };
        let bits = decimal::bits_f64(self.value);
        write!(
            f,
            "{sign}{} {} {} {bits:016x} ",
            self.size, self.decimals, self.billionths
        )
    }
}

impl Words for TimeOfDay {
    fn write<W: fmt::Write>(&self, f: &mut fmt::Formatter<W>) -> fmt::Result {
        write!(
            f,
            "{} {} {} {} ",
            self.hour, self.minute, self.second, self.nanosecond
        )
    }
}

impl Words for Day {
    fn write<W: fmt::Write>(&self, f: &mut fmt::Formatter<W>) -> fmt::Result {
        write!(f, "{} {} {} ", self.year, self.month, self.day)
    }
}

impl Words for Coordinate {
    fn write<W: fmt::Write>(&self, f: &mut fmt::Formatter<W>) -> fmt::Result {
        let bits = decimal::bits_f64(self.degrees);
        write!(f, "{} {} {bits:016x} ", self.count, self.letter)
    }
}

impl Words for Both {
    fn write<W: fmt::Write>(&self, f: &mut fmt::Formatter<W>) -> fmt::Result {
        self.lat.write(f)?;
        self.lon.write(f)
    }
}

impl<T: Words> Words for Option<T> {
    fn write<W: fmt::Write>(&self, f: &mut fmt::Formatter<W>) -> fmt::Result {
        match self {
            Some(value) => value.write(f),
            None => f.write_str("absent "),
        }
    }
}

// What a reader of a place answers: what it read and the next place; no match; or a refusal.
#[derive(Drop)]
pub(crate) struct Answer<T>(pub Parsed<T>);

impl<T: Words> fmt::Display for Answer<T> {
    fn fmt<W: fmt::Write>(&self, f: &mut fmt::Formatter<W>) -> fmt::Result {
        match &self.0 {
            Ok((value, next)) => {
                value.write(f)?;
                write!(f, "next {next}")
            }
            Err(Fault::NoMatch) => f.write_str("no"),
            Err(fault) => write!(f, "{}", Refused(Refusal::from(*fault))),
        }
    }
}

// A refusal by its number.
#[derive(Clone, Copy, Drop)]
pub(crate) struct Refused(pub Refusal);

impl fmt::Display for Refused {
    fn fmt<W: fmt::Write>(&self, f: &mut fmt::Formatter<W>) -> fmt::Result {
        write!(f, "refused {}", self.0.number())
    }
}
