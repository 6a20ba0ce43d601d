// A GSA sentence in words.
ghost use Rattle.std.specs.Prelude.{◌≡◌, refl, length};
ghost use Rattle.std.proofs.Common.{rules};
ghost use Rattle.gsa.specs.Gsa.{kept, Dops as DopsOf};
ghost use Rattle.gsa.specs.Answer.{three_dops};
ghost use Rattle.words.specs.Part.{three_words};
ghost use Rattle.words.specs.Gsa.{row_words};
ghost use Rattle.words.specs.Lengths.{row-nineteen, gsa-row};
ghost use Rattle.words.specs.Words.{into};
ghost use Rattle.words.specs.Answer.{row_body, gsa_row};

use crate::part::{Words, byte_word, put_option};
use crate::record::{self, Body, put_sentence};
use decimal::ShortDecimal;
use frame::Talker;
use gsa::{Dops, GsaHead, SATELLITES};

// Where each part stands.
const MODE: usize = 3;

const FIX: usize = 4;

const SYSTEM: usize = 5;

const DOPS: usize = 6;

const COUNT: usize = 19;

const REST: usize = 38;

impl Words for Dops {
    ghost SIZE = { 12 };

    ghost Meaning = { DopsOf };

    ghost meaning = { three_dops };

    ghost words = { three_words };

    const SIZE: usize = 3 * ShortDecimal::SIZE;

    ghost long = { λ _. refl };

    fn put(self, out: &mut [u64], at: usize) {
        self.pdop.put(out, at);
        self.hdop.put(out, at + ShortDecimal::SIZE);
        self.vdop.put(out, at + 2 * ShortDecimal::SIZE);
    }
}

// Cells and their count, as they are given.
#[derive(Clone, Copy)]
struct Cells {
    items: [u32; SATELLITES],
    count: usize,
    ghost all: { length items ≡ kept },
}

impl Words for Cells {
    ghost use Rattle.words.specs.declared.gsa_words.Cells.{Cells as CellsOf};

    ghost SIZE = { 19 };

    ghost Meaning = { CellsOf };

    ghost meaning = { λ c. c };

    ghost words = { λ c. row_words c.count c.items };

    const SIZE: usize = 1 + SATELLITES;

    ghost long = { λ c. row-nineteen c.count c.items };

    fn put(self, out: &mut [u64], at: usize) {
        out[at] = self.count as u64;
        for i in 0..SATELLITES {
            out[at + 1 + i] = u64::from(self.items[i]);
        }
    }
}

// What stands in front of the cells, and the cells.
#[derive(Clone, Copy)]
struct GsaRow {
    head: GsaHead,
    cells: Cells,
}

impl Body for GsaRow {
    ghost END = { 38 };

    ghost words = { λ r. row_body r.head r.cells.count r.cells.items };

    const END: usize = REST;

    ghost long = { λ r. gsa-row r.head r.cells.count r.cells.items };

    ghost within = { Prim.search rules };

    fn put_body(self, out: &mut [u64]) {
        out[MODE] = u64::from(self.head.mode);
        out[FIX] = u64::from(self.head.fix);
        out[SYSTEM] = byte_word(self.head.system);
        put_option(out, DOPS, self.head.dops);
        self.cells.put(out, COUNT);
    }
}

// Puts a GSA sentence into the first 40 words, with the count and the cells as they are given, and nothing where there are fewer.
pub fn put_gsa(
    out: &mut [u64],
    talker: Talker,
    head: GsaHead,
    items: [u32; SATELLITES],
    count: usize,
)
    ensures { out.new ≡ into (gsa_row talker head items count) out.old }
{
    let cells = Cells { items, count };
    put_sentence(out, record::GSA, talker, GsaRow { head, cells });
}
