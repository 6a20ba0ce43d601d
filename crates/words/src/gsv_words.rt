// A GSV sentence in words.
ghost use Rattle.std.specs.Prelude.{◌≡◌, ◌+◌, ◌≤◌, length};
ghost use Rattle.std.proofs.Common.{rules};
ghost use Rattle.std.proofs.lemmas.List.Edits.{sets};
ghost use Rattle.gsv.specs.Gsv.{Satellite};
ghost use Rattle.gsv.specs.Answer.{satellite, gsv_data, gsv_sentence};
ghost use Rattle.words.specs.Gsv.{satellite_words, entries_words, body_words, gsv_words};
ghost use Rattle.words.specs.Lengths.{satellite-seven, gsv-body};
ghost use Rattle.words.specs.Words.{word_count, into};

use crate::part::{Words, put_option};
use crate::record::{self, Body, put_sentence};
use frame::Talker;
use gsv::{GsvData, GsvRecord, SatInfo};

// Where each part stands: the system, the sentences of the group, which of them this is, the satellites in view, the entries.
const SYSTEM: usize = 3;

const SENTENCES: usize = 4;

const NUMBER: usize = 5;

const VIEW: usize = 6;

const ENTRIES: usize = 7;

const REST: usize = 39;

// How many words an entry has. Behind a 1, where it is present, stand the satellite and three numbers, each with a 1 before it.
pub const ENTRY_WORDS: usize = 8;

pub const SATELLITE: usize = 1;

pub const ELEVATION: usize = 2;

pub const AZIMUTH: usize = 4;

pub const SIGNAL: usize = 6;

impl Words for SatInfo {
    ghost SIZE = { 7 };

    ghost Meaning = { Satellite };

    ghost meaning = { satellite };

    ghost words = { satellite_words };

    const SIZE: usize = ENTRY_WORDS - 1;

    ghost long = { satellite-seven };

    fn put(self, out: &mut [u64], at: usize) {
        out[at] = u64::from(self.id);
        put_option(out, at + (ELEVATION - SATELLITE), self.elevation);
        put_option(out, at + (AZIMUTH - SATELLITE), self.azimuth);
        put_option(out, at + (SIGNAL - SATELLITE), self.signal);
    }
}

// The four entries.
fn put_entries(out: &mut [u64], g: GsvData)
    requires { word_count ≤ length out.old }
    ensures { out.new ≡ sets out.old 7 (entries_words (gsv_data g)) }
{
    put_option(out, ENTRIES, g.first);
    put_option(out, ENTRIES + ENTRY_WORDS, g.second);
    put_option(out, ENTRIES + 2 * ENTRY_WORDS, g.third);
    put_option(out, ENTRIES + 3 * ENTRY_WORDS, g.fourth);
}

impl Body for GsvRecord {
    ghost END = { 39 };

    ghost words = { λ d. body_words (gsv_sentence d) };

    const END: usize = REST;

    ghost long = { λ d. gsv-body (gsv_sentence d) };

    ghost within = { Prim.search rules };

    fn put_body(self, out: &mut [u64]) {
        let system = gsv::gnss_type(self.talker);
        out[SYSTEM] = u64::from(gsv::system_number(system));
        out[SENTENCES] = u64::from(self.data.count);
        out[NUMBER] = u64::from(self.data.index);
        out[VIEW] = u64::from(self.data.view);
        put_entries(out, self.data);
    }
}

// Puts a GSV sentence into the first 40 words, and nothing where there are fewer.
pub fn put_gsv(out: &mut [u64], g: GsvRecord)
    ensures { out.new ≡ into (gsv_words (gsv_sentence g)) out.old }
{
    let [first, second] = gsv::letters_of(g.talker);
    put_sentence(out, record::GSV, Talker(first, second), g);
}
