// A sentence of a known type that we do not read, in words.
ghost use Rattle.std.specs.Prelude.{ℕ, ◌≡◌, ◌+◌};
ghost use Rattle.std.proofs.Common.{ap, rules};
ghost use Rattle.frame.specs.Answer.{letters};
ghost use Rattle.words.specs.Part.{padded};
ghost use Rattle.words.specs.Other.{other_words};
ghost use Rattle.words.specs.Lengths.{padded-long};
ghost use Rattle.words.specs.Words.{into};
ghost use Rattle.words.specs.Answer.{other_sentence};

use crate::record::{self, Body, put_sentence};
use frame::{Kind, Talker};

// Where the type stands, and what is 0. Two zeros are put with the type, before its letters: the 34 together would be a call of `memset`,
// behind which the answer waits.
const TYPE: usize = 3;

const REST: usize = 8;

impl Body for Kind {
    ghost END = { 8 };

    ghost words = { λ k. padded 5 (letters k) };

    const END: usize = REST;

    ghost long = { λ k. ap (λ (n : ℕ). 3 + n) (padded-long 5 (letters k)) };

    ghost within = { Prim.search rules };

    fn put_body(self, out: &mut [u64]) {
        out[TYPE + 3] = 0;
        out[TYPE + 4] = 0;
        out[TYPE] = u64::from(self.0);
        out[TYPE + 1] = u64::from(self.1);
        out[TYPE + 2] = u64::from(self.2);
    }
}

// Puts talker and type into the first 40 words, and nothing where there are fewer.
pub fn put_other(out: &mut [u64], talker: Talker, kind: Kind)
    ensures { out.new ≡ into (other_words (other_sentence talker kind)) out.old }
{
    put_sentence(out, record::OTHER, talker, kind);
}
