// A GLL sentence in words.
ghost use Rattle.std.specs.Prelude.{◌≡◌};
ghost use Rattle.std.proofs.Common.{rules};
ghost use Rattle.gll.specs.Answer.{gll_data};
ghost use Rattle.words.specs.Gll.{field_words, gll_words};
ghost use Rattle.words.specs.Lengths.{gll-body};
ghost use Rattle.words.specs.Words.{into};
ghost use Rattle.words.specs.Answer.{gll_sentence};

use crate::part::{byte_word, put_option};
use crate::record::{self, Body, put_sentence};
use frame::Talker;
use gll::GllData;

// Where each part stands.
const POSITION: usize = 3;

const TIME: usize = 12;

const STATUS: usize = 17;

const MODE: usize = 18;

const REST: usize = 19;

impl Body for GllData {
    ghost END = { 19 };

    ghost words = { λ d. field_words (gll_data d) };

    const END: usize = REST;

    ghost long = { λ d. gll-body (gll_data d) };

    ghost within = { Prim.search rules };

    fn put_body(self, out: &mut [u64]) {
        put_option(out, POSITION, self.position);
        put_option(out, TIME, self.time);
        out[STATUS] = u64::from(self.status);
        out[MODE] = byte_word(self.mode);
    }
}

// Puts a GLL sentence into the first 40 words, and nothing where there are fewer.
pub fn put_gll(out: &mut [u64], talker: Talker, d: GllData)
    ensures { out.new ≡ into (gll_words (gll_sentence talker d)) out.old }
{
    put_sentence(out, record::GLL, talker, d);
}
