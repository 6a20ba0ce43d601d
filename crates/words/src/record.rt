// An answer: what it is, two words that say who sent it or why it is refused, its body, and zeros.
ghost use Rattle.std.specs.Prelude.{ℕ, List, ◌∷◌, ◌++◌, ◌≡◌, ◌+◌, ◌-◌, ◌≤◌, length};
ghost use Rattle.std.proofs.lemmas.List.Edits.{sets};
ghost use Rattle.frame.specs.Answer.{talker_bytes};
ghost use Rattle.words.specs.Part.{zeros, padded};
ghost use Rattle.words.specs.Words.{word_count, into};

use crate::{WORDS, part};
use frame::Talker;

// What word 0 says.
pub(crate) const RMC: u64 = 1;

pub(crate) const GSA: u64 = 2;

pub(crate) const GSV: u64 = 3;

pub(crate) const OTHER: u64 = 4;

pub(crate) const REFUSED: u64 = 5;

pub(crate) const GGA: u64 = 6;

pub(crate) const GLL: u64 = 7;

pub(crate) const VTG: u64 = 8;

// Where that word stands, and behind it two more.
const KIND: usize = 0;

const FIRST: usize = 1;

const SECOND: usize = 2;

// What stands behind those three, up to the zeros.
pub(crate) trait Body: Copy {
    // Where the zeros begin.
    ghost END: { ℕ };

    ghost words: { Self → List ℕ };

    const END: usize;

    fn put_body(self, out: &mut [u64])
        requires { word_count ≤ length out.old }
        ensures { out.new ≡ sets out.old 3 (words self) };

    ghost long: { (b : Self) → 3 + length (words b) ≡ END };

    ghost within: { END ≤ word_count };
}

// Puts an answer into the first 40 words, and nothing where there are fewer.
pub(crate) fn put_record<B: Body>(out: &mut [u64], kind: u64, first: u64, second: u64, body: B)
    ensures { out.new ≡ into (kind ∷ first ∷ second ∷ (B.words body ++ zeros (word_count - B.END))) out.old }
{
    if out.len() < WORDS {
        return;
    }
    out[KIND] = kind;
    out[FIRST] = first;
    out[SECOND] = second;
    body.put_body(out);
    let end = B::END;
    part::put_zeros(out, end, WORDS - end);
}

// The same of a sentence, by its talker's letters.
pub(crate) fn put_sentence<B: Body>(out: &mut [u64], kind: u64, talker: Talker, body: B)
    ensures { out.new ≡ into (kind ∷ (padded 2 (talker_bytes talker) ++ (B.words body ++ zeros (word_count - B.END)))) out.old }
{
    put_record(out, kind, u64::from(talker.0), u64::from(talker.1), body);
}
