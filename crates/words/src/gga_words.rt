// A GGA sentence in words.
ghost use Rattle.std.specs.Prelude.{◌≡◌, ◌≤◌, length};
ghost use Rattle.std.proofs.Common.{rules};
ghost use Rattle.std.proofs.lemmas.List.Edits.{sets};
ghost use Rattle.gga.specs.Answer.{fix_of, height_of, gga_data};
ghost use Rattle.words.specs.Gga.{fix_words, height_words, body_words, gga_words};
ghost use Rattle.words.specs.Lengths.{gga-body};
ghost use Rattle.words.specs.Words.{word_count, into};
ghost use Rattle.words.specs.Answer.{gga_sentence};

use crate::part::put_option;
use crate::record::{self, Body, put_sentence};
use frame::Talker;
use gga::{Fix, GgaData, Height};

// Where each part stands.
const TIME: usize = 3;

const POSITION: usize = 8;

const FIX: usize = 17;

const SATELLITES: usize = 18;

const HDOP: usize = 20;

const ALTITUDE: usize = 25;

const GEOID: usize = 30;

const REST: usize = 35;

// Time, position, fix and satellites.
fn put_fix(out: &mut [u64], fix: Fix)
    requires { word_count ≤ length out.old }
    ensures { out.new ≡ sets out.old 3 (fix_words (fix_of fix)) }
{
    put_option(out, TIME, fix.time);
    put_option(out, POSITION, fix.position);
    out[FIX] = u64::from(fix.quality);
    put_option(out, SATELLITES, fix.satellites);
}

// Dilution, altitude and geoid.
fn put_height(out: &mut [u64], height: Height)
    requires { word_count ≤ length out.old }
    ensures { out.new ≡ sets out.old 20 (height_words (height_of height)) }
{
    put_option(out, HDOP, height.hdop);
    put_option(out, ALTITUDE, height.altitude);
    put_option(out, GEOID, height.geoid);
}

impl Body for GgaData {
    ghost END = { 35 };

    ghost words = { λ d. body_words (gga_data d) };

    const END: usize = REST;

    ghost long = { λ d. gga-body (gga_data d) };

    ghost within = { Prim.search rules };

    fn put_body(self, out: &mut [u64]) {
        put_fix(out, self.fix);
        put_height(out, self.height);
    }
}

// Puts a GGA sentence into the first 40 words, and nothing where there are fewer.
pub fn put_gga(out: &mut [u64], talker: Talker, d: GgaData)
    ensures { out.new ≡ into (gga_words (gga_sentence talker d)) out.old }
{
    put_sentence(out, record::GGA, talker, d);
}
