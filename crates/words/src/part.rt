// The parts of an answer, each written at a place of words that are lent. The caller has room for them.
ghost use Rattle.std.specs.Prelude.{ℕ, List, ◌≡◌, ◌+◌, ◌≤◌, refl, length};
ghost use Rattle.std.proofs.Math.Option.{get_or};
ghost use Rattle.std.proofs.lemmas.List.Edits.{sets};
ghost use Rattle.text.specs.Answer.{held, held_as};
ghost use Rattle.decimal.specs.Places.{Short};
ghost use Rattle.decimal.specs.Answer.{a_short};
ghost use Rattle.fields.specs.Time.{Time};
ghost use Rattle.fields.specs.Date.{Date};
ghost use Rattle.fields.specs.Position.{Position, LatLon};
ghost use Rattle.fields.specs.Answer.{time_of, day_of, coordinate, both};
ghost use Rattle.words.specs.Part.{zeros, present, sign, number_words, clock_words, day_words, coordinate_words, both_words, dop_words};

use decimal::ShortDecimal;
use fields::{Both, Coordinate, Day, TimeOfDay};

// Zeros: n of them from a place on.
pub(crate) fn put_zeros(out: &mut [u64], at: usize, n: usize)
    requires { at + n ≤ length out.old }
    ensures { out.new ≡ sets out.old at (zeros n) }
{
    out[at..at + n].fill(0);
}

// A letter or a system's number that may be absent.
pub(crate) fn byte_word(b: Option<u8>) -> u64
    ensures { result ≡ get_or (held b) 0 }
{
    b.map_or(0, u64::from)
}

// A value that stands in an answer as a row of words.
pub(crate) trait Words: Copy {
    // How many words it has.
    ghost SIZE: { ℕ };

    // What it means, and the words of that.
    ghost Meaning: { Type 0 };

    ghost meaning: { Self → Meaning };

    ghost words: { Meaning → List ℕ };

    const SIZE: usize;

    fn put(self, out: &mut [u64], at: usize)
        requires { at + SIZE ≤ length out.old }
        ensures { out.new ≡ sets out.old at (words (meaning self)) };

    ghost long: { (m : Meaning) → length (words m) ≡ SIZE };
}

// A value that may be absent: a 1 and its words, or zeros.
pub(crate) fn put_option<T: Words>(out: &mut [u64], at: usize, value: Option<T>)
    requires { at + (1 + T.SIZE) ≤ length out.old }
    ensures { out.new ≡ sets out.old at (present T.SIZE T.words (held_as T.meaning value)) }
{
    match value {
        None => put_zeros(out, at, 1 + T::SIZE),
        Some(x) => {
            out[at] = 1;
            x.put(out, at + 1);
        }
    }
}

impl Words for u32 {
    ghost SIZE = { 1 };

    ghost Meaning = { ℕ };

    ghost meaning = { λ n. n };

    ghost words = { number_words };

    const SIZE: usize = 1;

    ghost long = { λ _. refl };

    fn put(self, out: &mut [u64], at: usize) {
        out[at] = u64::from(self);
    }
}

impl Words for TimeOfDay {
    ghost SIZE = { 4 };

    ghost Meaning = { Time };

    ghost meaning = { time_of };

    ghost words = { clock_words };

    const SIZE: usize = 4;

    ghost long = { λ _. refl };

    fn put(self, out: &mut [u64], at: usize) {
        out[at] = u64::from(self.hour);
        out[at + 1] = u64::from(self.minute);
        out[at + 2] = u64::from(self.second);
        out[at + 3] = u64::from(self.nanosecond);
    }
}

impl Words for Day {
    ghost SIZE = { 3 };

    ghost Meaning = { Date };

    ghost meaning = { day_of };

    ghost words = { day_words };

    const SIZE: usize = 3;

    ghost long = { λ _. refl };

    fn put(self, out: &mut [u64], at: usize) {
        out[at] = u64::from(self.year);
        out[at + 1] = u64::from(self.month);
        out[at + 2] = u64::from(self.day);
    }
}

// A number's sign: 1 if it is below zero.
fn sign_of(z: i64) -> u64
    ensures { result ≡ sign z }
{
    u64::from(z < 0)
}

impl Words for Coordinate {
    ghost SIZE = { 4 };

    ghost Meaning = { Position };

    ghost meaning = { coordinate };

    ghost words = { coordinate_words };

    const SIZE: usize = 4;

    ghost long = { λ _. refl };

    fn put(self, out: &mut [u64], at: usize) {
        out[at] = sign_of(self.count);
        out[at + 1] = self.count.unsigned_abs();
        out[at + 2] = u64::from(self.letter);
        out[at + 3] = decimal::bits_f64(self.degrees);
    }
}

impl Words for Both {
    ghost SIZE = { 8 };

    ghost Meaning = { LatLon };

    ghost meaning = { both };

    ghost words = { both_words };

    const SIZE: usize = 2 * Coordinate::SIZE;

    ghost long = { λ _. refl };

    fn put(self, out: &mut [u64], at: usize) {
        self.lat.put(out, at);
        self.lon.put(out, at + Coordinate::SIZE);
    }
}

impl Words for ShortDecimal {
    ghost SIZE = { 4 };

    ghost Meaning = { Short };

    ghost meaning = { a_short };

    ghost words = { dop_words };

    const SIZE: usize = 4;

    ghost long = { λ _. refl };

    fn put(self, out: &mut [u64], at: usize) {
        out[at] = sign_of(i64::from(self.whole));
        out[at + 1] = u64::from(self.whole.unsigned_abs());
        out[at + 2] = u64::from(self.decimals);
        out[at + 3] = u64::from(decimal::bits_f32(self.value));
    }
}
