// A VTG sentence in words.
ghost use Rattle.std.specs.Prelude.{◌≡◌, refl};
ghost use Rattle.std.proofs.Common.{rules};
ghost use Rattle.vtg.specs.Vtg.{Speed as SpeedOf};
ghost use Rattle.vtg.specs.Answer.{a_speed, vtg_data};
ghost use Rattle.words.specs.Vtg.{unit_words, body_words, vtg_words};
ghost use Rattle.words.specs.Lengths.{vtg-body};
ghost use Rattle.words.specs.Words.{into};
ghost use Rattle.words.specs.Answer.{vtg_sentence};

use crate::part::{Words, put_option};
use crate::record::{self, Body, put_sentence};
use decimal::ShortDecimal;
use frame::Talker;
use vtg::{Speed, VtgData};

// Where each part stands.
const COURSE: usize = 3;

const SPEED: usize = 8;

const REST: usize = 15;

// And of a speed, behind its unit: the speed as it is written, and in knots.
const WRITTEN: usize = 1;

const KNOTS: usize = WRITTEN + ShortDecimal::SIZE;

impl Words for Speed {
    ghost SIZE = { 6 };

    ghost Meaning = { SpeedOf };

    ghost meaning = { a_speed };

    ghost words = { unit_words };

    const SIZE: usize = KNOTS + 1;

    ghost long = { λ _. refl };

    fn put(self, out: &mut [u64], at: usize) {
        out[at] = u64::from(self.unit);
        self.written.put(out, at + WRITTEN);
        out[at + KNOTS] = u64::from(decimal::bits_f32(self.knots));
    }
}

impl Body for VtgData {
    ghost END = { 15 };

    ghost words = { λ d. body_words (vtg_data d) };

    const END: usize = REST;

    ghost long = { λ d. vtg-body (vtg_data d) };

    ghost within = { Prim.search rules };

    fn put_body(self, out: &mut [u64]) {
        put_option(out, COURSE, self.course);
        put_option(out, SPEED, self.speed);
    }
}

// Puts a VTG sentence into the first 40 words, and nothing where there are fewer.
pub fn put_vtg(out: &mut [u64], talker: Talker, d: VtgData)
    ensures { out.new ≡ into (vtg_words (vtg_sentence talker d)) out.old }
{
    put_sentence(out, record::VTG, talker, d);
}
