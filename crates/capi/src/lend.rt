// A table of satellite rows that the caller lends, for C and Rust: made fresh, given a line, and a row of it read.
ghost use Rattle.std.specs.Prelude.{◌≡◌, ◌+◌, ◌-◌, ◌*◌, ◌<◌, ◌≤◌, length};
ghost use Rattle.std.proofs.Math.Option.{some};
ghost use Rattle.std.proofs.lemmas.List.Edits.{sets};
ghost use Rattle.rows.specs.Key.{row_count};
ghost use Rattle.gather.specs.Words.{row_words, cell_count, number_of, sat_at, sats_from};
ghost use Rattle.words.specs.Part.{zeros, option_words};
ghost use Rattle.words.specs.Gsv.{entry_words};
ghost use Rattle.capi.specs.Lend.{Freshened, code, GatheredLine, row_room, row_head, entries_words, RowRead};
ghost use Rattle.capi.specs.Code.{taken_code, ReadAs};

use crate::{DONE, UNDONE};
use gather::lent;
use gather::line::Outcome;
use intake::Taken;
use words::{ENTRY_WORDS, WORDS};

// Where in the words of a row that is read its system stands, n, the number waited for, the in-view count, the count of entries, and an
// entry for each cell.
const SYSTEM: usize = 0;

const SENTENCES: usize = 1;

const WAITS_FOR: usize = 2;

const VIEW: usize = 3;

const COUNT: usize = 4;

const ENTRIES: usize = 5;

const ROW_WORDS: usize = ENTRIES + lent::CELLS * ENTRY_WORDS;

// What a line that is taken did: it is no accepted GSV line; no run stands; its run waits; and, with the row's number, that row is a group.
const NO_GSV: u32 = 0;

const NO_RUN: u32 = 1;

const WAITS: u32 = 2;

const GROUP: u32 = 3;

// Makes a table fresh: every word 0. A table of another length is left as it is, and 255.
pub fn nmea_fresh(table: &mut [u32]) -> u32
    ensures { Freshened table.old table.new result }
{
    if table.len() != gather::table::WORDS {
        return UNDONE;
    }
    table.fill(0);
    DONE
}

// What a line did to its row, as a number.
fn row_code(o: Outcome, row: usize) -> u32
    requires { row < row_count }
    ensures { result ≡ code o row }
{
    match o {
        Outcome::NoRow => NO_RUN,
        Outcome::Nothing => NO_RUN,
        Outcome::Waiting => WAITS,
        Outcome::Complete => GROUP + row as u32,
    }
}

// What a line that was taken did to the table.
fn taken_code(taken: Taken) -> u32
    ensures { result ≡ taken_code taken }
{
    match taken {
        Ok(Some(g)) => {
            let row = gather::table::row_of(gather::table::source_of(g.talker));
            row_code(g.outcome, row)
        }
        _ => NO_GSV,
    }
}

// Takes a line: its whole answer in the first 40 words, and what it does to the table, as a number. 255: too few words or a table of
// another length, and nothing written.
pub fn nmea_gather(line: &[u8], out: &mut [u64], table: &mut [u32]) -> u32
    ensures { GatheredLine line.now out.old out.new table.old table.new result }
{
    if out.len() < WORDS {
        return UNDONE;
    }
    if table.len() != gather::table::WORDS {
        return UNDONE;
    }
    taken_code(intake::take(line, &mut *out, &mut *table))
}

// A word of a row that may be absent, as two.
fn put_option(out: &mut [u64], at: usize, x: u32)
    requires room { at + 2 ≤ length out.old }
    requires near { at ≤ 400 }
    ensures { out.new ≡ sets out.old at (option_words (number_of x)) }
{
    if x == lent::ABSENT {
        out[at] = 0;
        out[at + 1] = 0;
        return;
    }
    out[at] = 1;
    out[at + 1] = x as u64;
}

// The entry in cell i.
fn put_entry(out: &mut [u64], row: &[u32], i: usize)
    requires row { length row.now ≡ row_words }
    requires cell { i < cell_count }
    requires room { row_room ≤ length out.old }
    ensures { out.new ≡ sets out.old (5 + i * 8) (entry_words (some (sat_at row.now i))) }
{
    let at = lent::HEAD + i * lent::CELL;
    let id = row[at];
    let elevation = row[at + lent::ELEVATION];
    let azimuth = row[at + lent::AZIMUTH];
    let signal = row[at + lent::SIGNAL];
    let to = ENTRIES + i * ENTRY_WORDS;
    out[to] = 1;
    out[to + words::SATELLITE] = id as u64;
    put_option(&mut *out, to + words::ELEVATION, elevation);
    put_option(&mut *out, to + words::AZIMUTH, azimuth);
    put_option(&mut *out, to + words::SIGNAL, signal);
}

// A row's system, n, the number waited for, in view and count.
fn put_head(out: &mut [u64], row: &[u32], number: usize)
    requires row { length row.now ≡ row_words }
    requires number { number < row_count }
    requires room { row_room ≤ length out.old }
    ensures { out.new ≡ sets out.old 0 (row_head number row.now) }
{
    out[SYSTEM] = number as u64 + 1;
    out[SENTENCES] = row[lent::N] as u64;
    out[WAITS_FOR] = row[lent::NEXT] as u64;
    out[VIEW] = row[lent::VIEW] as u64;
    out[COUNT] = row[lent::COUNT] as u64;
}

// The entries in the first count of its cells.
fn put_entries(out: &mut [u64], row: &[u32], count: usize)
    requires row { length row.now ≡ row_words }
    requires count { count ≤ cell_count }
    requires room { row_room ≤ length out.old }
    ensures { out.new ≡ sets out.old 5 (entries_words (sats_from 0 count row.now)) }
{
    for i in 0..count {
        put_entry(&mut *out, row, i);
    }
}

// Zeros from a word on, to the last of a row.
fn put_zeros(out: &mut [u64], from: usize)
    requires from { from ≤ row_room }
    requires room { row_room ≤ length out.old }
    ensures { out.new ≡ sets out.old from (zeros (row_room - from)) }
{
    out[from..ROW_WORDS].fill(0);
}

// The words of a row, where there is room for them.
fn read_row(row: &[u32], number: usize, out: &mut [u64]) -> u32
    requires row { length row.now ≡ row_words }
    requires number { number < row_count }
    requires room { row_room ≤ length out.old }
    ensures { ReadAs row.now number out.old out.new result }
{
    let count = row[lent::COUNT] as usize;
    if lent::CELLS < count {
        return UNDONE;
    }
    put_head(&mut *out, row, number);
    put_entries(&mut *out, row, count);
    put_zeros(&mut *out, ENTRIES + count * ENTRY_WORDS);
    DONE
}

// Reads a row of a table: its system, n, the number waited for, in view, count and 36 entries in the first 293 words. Too few words, a
// table of another length, a row that it has not, or one with more than 36 entries: 255, and nothing written.
pub fn nmea_row(table: &[u32], row: usize, out: &mut [u64]) -> u32
    ensures { RowRead table.now row out.old out.new result }
{
    if out.len() < ROW_WORDS {
        return UNDONE;
    }
    if table.len() != gather::table::WORDS {
        return UNDONE;
    }
    if gather::table::ROWS <= row {
        return UNDONE;
    }
    let at = row * lent::ROW;
    let end = at + lent::ROW;
    read_row(&table[at..end], row, out)
}
