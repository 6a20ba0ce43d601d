// The totals of a whole log, for C and Rust.
ghost use Rattle.std.specs.Prelude.{◌≡◌, ◌≤◌, ◌++◌, length, drop};
ghost use Rattle.capi.specs.Totals.{totals_of, WalkedAll};

use crate::{DONE, UNDONE};
use logs::walk::{Counts, totals};

// How many totals there are, and where each stands.
const TOTALS: usize = 5;

const LINES: usize = 0;

const BLANK: usize = 1;

const ACCEPTED: usize = 2;

const REFUSED: usize = 3;

const GROUPS: usize = 4;

fn put_totals(out: &mut [u64], c: Counts)
    requires { 5 ≤ length out.old }
    ensures { out.new ≡ totals_of c ++ drop 5 out.old }
{
    out[LINES] = c.lines as u64;
    out[BLANK] = c.blank as u64;
    out[ACCEPTED] = c.accepted as u64;
    out[REFUSED] = c.refused as u64;
    out[GROUPS] = c.groups as u64;
}

// Walks the whole log from its start with a fresh gatherer. Lines, blank, accepted, refused and groups in the first five words, and 0; or
// the number of the log's refusal, or 255 where the buffer is shorter, and nothing written.
pub fn nmea_walk(log: &[u8], out: &mut [u64]) -> u32
    ensures { WalkedAll log.now out.old out.new result }
{
    if out.len() < TOTALS {
        return UNDONE;
    }
    match totals(log) {
        Ok(c) => {
            put_totals(out, c);
            DONE
        }
        Err(why) => why.number(),
    }
}
