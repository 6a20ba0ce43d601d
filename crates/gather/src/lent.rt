// Whether lines of at most 102 bytes can leave a row. The test is `stands`.
ghost use Rattle.std.specs.Prelude.{◌≡◌, ◌≤◌, ◌<◌, length};
ghost use Rattle.pack.specs.Cut.{piece_count};
ghost use Rattle.rows.specs.Leave.{upto, entry_size, space};
ghost use Rattle.gather.specs.Words.{row_words, cell_count, number_of, sat_at, sats_from, stands};
ghost use Rattle.gather.specs.Code.{sat_within, all_within, short_max, raised, sat_bits, Digits, OptDigits, Sized, put_on, Puts};

use crate::run;
use crate::run::Run;

// The words of a row: its head, and a cell of four words for each entry of nine lines of four.
pub const ROW: usize = HEAD + CELLS * CELL;

pub const HEAD: usize = 4;

pub const CELL: usize = 4;

pub const CELLS: usize = 36;

// Where in a cell, behind the satellite, its elevation stands, its azimuth and its signal.
pub const ELEVATION: usize = 1;

pub const AZIMUTH: usize = 2;

pub const SIGNAL: usize = 3;

// Where in it n stands, the number waited for, the in-view count and the count of entries.
pub const N: usize = 0;

pub const NEXT: usize = 1;

pub const VIEW: usize = 2;

pub const COUNT: usize = 3;

// The most lines of a group, and the most entries of a line.
pub(crate) const LINES: u32 = 9;

const ENTRIES: usize = 4;

// What a line has left for its in-view count and its entries, and one more, since the last needs no comma.
const SPACE: usize = 88;

// The commas of an entry, one behind it counted.
const COMMAS: usize = 4;

// The word of what is absent.
pub const ABSENT: u32 = 4294967295;

// The numbers of short entries are below this: any four such entries go into one line. All its bits are set, so that the bits of several
// numbers, or'ed, exceed it exactly where one of the numbers does.
const SHORT: u32 = 8191;

fn within(x: u32, max: u32) -> bool
    ensures { result ≡ upto max (number_of x) }
{
    if x == ABSENT {
        return true;
    }
    x <= max
}

// The numbers of cell i are within two limits.
fn cell_within(row: &[u32], i: usize, ids: u32, max: u32) -> bool
    requires row { length row.now ≡ row_words }
    requires cell { i < cell_count }
    ensures { result ≡ sat_within ids max (sat_at row.now i) }
{
    let at = HEAD + i * CELL;
    if ids < row[at] {
        return false;
    }
    if !within(row[at + ELEVATION], max) {
        return false;
    }
    if !within(row[at + AZIMUTH], max) {
        return false;
    }
    within(row[at + SIGNAL], max)
}

fn all_within(row: &[u32], count: usize, ids: u32, max: u32) -> bool
    requires row { length row.now ≡ row_words }
    requires cells { count ≤ cell_count }
    ensures { result ≡ all_within ids max (sats_from 0 count row.now) }
{
    for i in 0..count {
        if !cell_within(row, i, ids, max) {
            return false;
        }
    }
    true
}

// One more than a number, and nothing for an absent one. Both answers are one sum that wraps.
fn raised(x: u32) -> u32
    ensures { result ≡ raised (number_of x) }
{
    if x == ABSENT {
        return 0;
    }
    x + 1
}

// The bits of the numbers of cell i, each raised, and those of its satellite, which is never absent. The satellite is raised too so that
// the four words are alike: they are then taken by one instruction.
fn cell_bits(row: &[u32], i: usize) -> u32
    requires row { length row.now ≡ row_words }
    requires cell { i < cell_count }
    ensures { result ≡ sat_bits (sat_at row.now i) }
{
    let at = HEAD + i * CELL;
    let id = row[at];
    id | raised(id)
        | raised(row[at + ELEVATION])
        | raised(row[at + AZIMUTH])
        | raised(row[at + SIGNAL])
}

// Whether the first count of the cells have short entries: a line's cells at once, and then one by one.
fn all_short(row: &[u32], count: usize) -> bool
    requires row { length row.now ≡ row_words }
    requires cells { count ≤ cell_count }
    ensures { result ≡ all_within short_max short_max (sats_from 0 count row.now) }
{
    let lines = count / ENTRIES;
    for line in 0..lines {
        let i = line * ENTRIES;
        let bits = cell_bits(row, i)
            | cell_bits(row, i + 1)
            | cell_bits(row, i + 2)
            | cell_bits(row, i + 3);
        if SHORT < bits {
            return false;
        }
    }
    for i in lines * ENTRIES..count {
        if SHORT < cell_bits(row, i) {
            return false;
        }
    }
    true
}

// How many digits the shortest text of a number has. 0 has no logarithm, and one digit.
fn digits(x: u32) -> usize
    ensures { Digits x result }
{
    x.checked_ilog10().map_or(1, |power| power as usize + 1)
}

fn opt_digits(x: u32) -> usize
    ensures { OptDigits (number_of x) result }
{
    if x == ABSENT {
        return 0;
    }
    digits(x)
}

// The bytes of the entry in cell i, with one for a comma.
fn size_at(row: &[u32], i: usize) -> usize
    requires row { length row.now ≡ row_words }
    requires cell { i < cell_count }
    ensures { Sized (sat_at row.now i) result }
{
    let at = HEAD + i * CELL;
    let a = digits(row[at]);
    let b = opt_digits(row[at + ELEVATION]);
    let c = opt_digits(row[at + AZIMUTH]);
    let d = opt_digits(row[at + SIGNAL]);
    a + b + c + d + COMMAS
}

// Lines begun, and the entries and bytes of the last.
#[derive(Clone, Copy)]
struct Pile {
    lines: usize,
    count: usize,
    used: usize,
}

// One entry of w bytes more.
fn pile_on(p: Pile, w: usize, room: usize) -> Pile
    requires { Puts p w }
    ensures { result ≡ put_on p w room }
{
    if ENTRIES <= p.count {
        return Pile {
            lines: p.lines + 1,
            count: 1,
            used: w,
        };
    }
    let used = p.used + w;
    if room < used {
        return Pile {
            lines: p.lines + 1,
            count: 1,
            used: w,
        };
    }
    Pile {
        count: p.count + 1,
        used,
        ..p
    }
}

// How many lines the first count of the cells take.
fn pieces(row: &[u32], view: u32, count: usize) -> usize
    requires row { length row.now ≡ row_words }
    requires cells { count ≤ cell_count }
    ensures { result ≡ piece_count entry_size (space view) (sats_from 0 count row.now) }
{
    let d = digits(view);
    let room = SPACE - d;
    let mut p = Pile {
        lines: 0,
        count: ENTRIES,
        used: 0,
    };
    for i in 0..count {
        p = pile_on(p, size_at(row, i), room);
    }
    p.lines
}

// Lines of at most 102 bytes can leave this row.
pub fn row_stands(row: &[u32]) -> bool
    ensures { result ≡ stands row.now }
{
    if row.len() != ROW {
        return false;
    }
    let run = Run {
        n: row[N],
        next: row[NEXT],
        view: row[VIEW],
    };
    if !run::stands(run) {
        return false;
    }
    if gsv::COUNT_MAX < run.view {
        return false;
    }
    let count = row[COUNT] as usize;
    if CELLS < count {
        return false;
    }
    let came = run.next as usize - 1;
    if all_short(row, count) {
        return count <= ENTRIES * came;
    }
    if !all_within(row, count, gsv::ID_MAX, gsv::PLACE_MAX) {
        return false;
    }
    let k = pieces(row, run.view, count);
    k <= came
}
