// An RMC sentence in words.
ghost use Rattle.std.specs.Prelude.{◌≡◌, ◌≤◌, length};
ghost use Rattle.std.proofs.lemmas.List.Edits.{sets};
ghost use Rattle.std.proofs.Common.{rules};
ghost use Rattle.rmc.specs.Answer.{fix_of, motion_of, ending_of, rmc_data};
ghost use Rattle.words.specs.Rmc.{fix_words, motion_words, ending_words, body_words, rmc_words};
ghost use Rattle.words.specs.Words.{word_count, into};
ghost use Rattle.words.specs.Answer.{rmc_sentence};
ghost use Rattle.words.specs.Lengths.{rmc-body};

use crate::part::{byte_word, put_option};
use crate::record::{self, Body, put_sentence};
use frame::Talker;
use rmc::{Ending, Fix, Motion, RmcData};

// Where each part stands.
const TIME: usize = 3;

const STATUS: usize = 8;

const POSITION: usize = 9;

const SPEED: usize = 18;

const COURSE: usize = 23;

const DATE: usize = 28;

const VARIATION: usize = 32;

const MODE: usize = 37;

const NAVIGATION: usize = 38;

const REST: usize = 39;

// Time, status and position.
fn put_fix(out: &mut [u64], fix: Fix)
    requires { word_count ≤ length out.old }
    ensures { out.new ≡ sets out.old 3 (fix_words (fix_of fix)) }
{
    put_option(out, TIME, fix.time);
    out[STATUS] = u64::from(fix.status);
    put_option(out, POSITION, fix.position);
}

// Speed, course and date.
fn put_motion(out: &mut [u64], motion: Motion)
    requires { word_count ≤ length out.old }
    ensures { out.new ≡ sets out.old 18 (motion_words (motion_of motion)) }
{
    put_option(out, SPEED, motion.speed);
    put_option(out, COURSE, motion.course);
    put_option(out, DATE, motion.date);
}

// Variation, mode and navigational status.
fn put_ending(out: &mut [u64], ending: Ending)
    requires { word_count ≤ length out.old }
    ensures { out.new ≡ sets out.old 32 (ending_words (ending_of ending)) }
{
    put_option(out, VARIATION, ending.variation);
    out[MODE] = byte_word(ending.letters.mode);
    out[NAVIGATION] = byte_word(ending.letters.status);
}

impl Body for RmcData {
    ghost END = { 39 };

    ghost words = { λ d. body_words (rmc_data d) };

    const END: usize = REST;

    ghost long = { λ d. rmc-body (rmc_data d) };

    ghost within = { Prim.search rules };

    fn put_body(self, out: &mut [u64]) {
        put_fix(out, self.fix);
        put_motion(out, self.motion);
        put_ending(out, self.ending);
    }
}

// Puts an RMC sentence into the first 40 words, and nothing where there are fewer.
pub fn put_rmc(out: &mut [u64], talker: Talker, d: RmcData)
    ensures { out.new ≡ into (rmc_words (rmc_sentence talker d)) out.old }
{
    put_sentence(out, record::RMC, talker, d);
}
