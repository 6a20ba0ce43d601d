// A refusal in words.
ghost use Rattle.std.specs.Prelude.{ℕ, ◌≡◌, ◌+◌, length};
ghost use Rattle.std.proofs.Common.{ap, rules};
ghost use Rattle.frame.specs.Answer.{refused};
ghost use Rattle.words.specs.Part.{padded};
ghost use Rattle.words.specs.Refused.{refused_words};
ghost use Rattle.words.specs.Lengths.{padded-long};
ghost use Rattle.words.specs.Words.{into};

use crate::record::{self, Body, put_record};
use frame::{Refusal, Talker};

// Where the values stand, and how many there may be.
const VALUES: usize = 3;

const MOST: usize = 6;

const REST: usize = 9;

// How many values a refusal carries.
fn count_of(why: Refusal) -> u64
    ensures { result ≡ length (refused why).carries }
{
    match why {
        Refusal::BadUtf8
        | Refusal::NotAscii
        | Refusal::Syntax
        | Refusal::UnknownType
        | Refusal::Number
        | Refusal::BadTime => 0,
        Refusal::TooLong(_) | Refusal::LogTooLong(_) | Refusal::BadPlace(_) => 1,
        Refusal::Checksum(_, _) | Refusal::UnknownTalker(_) | Refusal::SystemMismatch(_, _) => 2,
        Refusal::WrongHeader(_, _) => 6,
    }
}

// The values, and zeros behind them.
fn values_of(why: Refusal) -> [u64; MOST]
    ensures { result ≡ padded 6 (refused why).carries }
{
    match why {
        Refusal::BadUtf8
        | Refusal::NotAscii
        | Refusal::Syntax
        | Refusal::UnknownType
        | Refusal::Number
        | Refusal::BadTime => [0; MOST],
        Refusal::TooLong(n) | Refusal::LogTooLong(n) | Refusal::BadPlace(n) => {
            [n as u64, 0, 0, 0, 0, 0]
        }
        Refusal::Checksum(a, b)
        | Refusal::UnknownTalker(Talker(a, b))
        | Refusal::SystemMismatch(a, b) => [u64::from(a), u64::from(b), 0, 0, 0, 0],
        Refusal::WrongHeader(expected, found) => [
            u64::from(expected.0),
            u64::from(expected.1),
            u64::from(expected.2),
            u64::from(found.0),
            u64::from(found.1),
            u64::from(found.2),
        ],
    }
}

impl Body for Refusal {
    ghost END = { 9 };

    ghost words = { λ r. padded 6 (refused r).carries };

    const END: usize = REST;

    ghost long = { λ r. ap (λ (n : ℕ). 3 + n) (padded-long 6 (refused r).carries) };

    ghost within = { Prim.search rules };

    fn put_body(self, out: &mut [u64]) {
        let values = values_of(self);
        out[VALUES..REST].copy_from_slice(&values);
    }
}

// Puts a refusal into the first 40 words, and nothing where there are fewer.
pub fn put_refused(out: &mut [u64], why: Refusal)
    ensures { out.new ≡ into (refused_words (refused why)) out.old }
{
    put_record(
        out,
        record::REFUSED,
        u64::from(why.number()),
        count_of(why),
        why,
    );
}
