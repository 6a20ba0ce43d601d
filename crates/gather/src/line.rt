// What an accepted GSV line does to its row, in place, whatever the row holds.
ghost use Rattle.std.specs.Prelude.{◌≡◌, [], ◌+◌, ◌≤◌, ◌<◌, length};
ghost use Rattle.text.specs.Answer.{held};
ghost use Rattle.groups.specs.Step.{sofar};
ghost use Rattle.gsv.specs.Gsv.{present, keep};
ghost use Rattle.gsv.specs.Answer.{slot as slot_of, gsv_data, gsv_sentence};
ghost use Rattle.rows.specs.Line.{line_of};
ghost use Rattle.gather.specs.Words.{row_words, cell_count, word_of, meant};
ghost use Rattle.gather.specs.Put.{Put};
ghost use Rattle.gather.specs.Code.{headed, before_of, Stored};

use crate::run::Run;
use crate::{lent, run};
use gsv::{GsvData, GsvHead, GsvRecord, SatInfo};

// How many entries stand before a line that starts a run or goes on with one.
fn so_far(row: &[u32], head: GsvHead) -> Option<usize>
    requires { length row.now ≡ row_words }
    ensures { result ≡ before_of (sofar (meant row.now) (headed head.count head.index head.view)) }
{
    let run = Run {
        n: row[lent::N],
        next: row[lent::NEXT],
        view: row[lent::VIEW],
    };
    if !run::runs(run, head) {
        return None;
    }
    if head.index == 1 {
        return Some(0);
    }
    if !lent::row_stands(row) {
        return None;
    }
    Some(row[lent::COUNT] as usize)
}

// The word of a number that may be absent.
fn word(number: Option<u32>) -> u32
    ensures { result ≡ word_of (held number) }
{
    number.unwrap_or(lent::ABSENT)
}

// An entry that is there goes into cell k; the count of cells after it.
fn put_slot(row: &mut [u32], k: usize, slot: Option<SatInfo>) -> usize
    requires row { length row.old ≡ row_words }
    requires cell { k < cell_count }
    ensures { Stored row.old row.new k (keep (slot_of slot) []) result }
{
    let Some(satellite) = slot else {
        return k;
    };
    let at = lent::HEAD + k * lent::CELL;
    row[at] = satellite.id;
    row[at + lent::ELEVATION] = word(satellite.elevation);
    row[at + lent::AZIMUTH] = word(satellite.azimuth);
    row[at + lent::SIGNAL] = word(satellite.signal);
    k + 1
}

// The entries of a line go into the cells from k on.
fn put_slots(row: &mut [u32], k: usize, d: GsvData) -> usize
    requires row { length row.old ≡ row_words }
    requires cells { k + 4 ≤ cell_count }
    ensures { Stored row.old row.new k (present (gsv_data d)) result }
{
    let k = put_slot(&mut *row, k, d.first);
    let k = put_slot(&mut *row, k, d.second);
    let k = put_slot(&mut *row, k, d.third);
    put_slot(&mut *row, k, d.fourth)
}

// What a line did to its row. Complete: until the next line of its key the row's n, in-view count, count and cells are the group.
#[derive(Clone, Copy, Debug, PartialEq, Eq)]
pub enum Outcome {
    NoRow,
    Nothing,
    Waiting,
    Complete,
}

// What an accepted GSV line does to its row. Words that are no row are left as they are.
pub fn put(row: &mut [u32], line: GsvRecord) -> Outcome
    ensures { Put row.old row.new (line_of (gsv_sentence line)) result }
{
    if row.len() != lent::ROW {
        return Outcome::NoRow;
    }
    let d = line.data;
    let head = GsvHead {
        count: d.count,
        index: d.index,
        view: d.view,
    };
    let Some(before) = so_far(&*row, head) else {
        row[lent::NEXT] = 0;
        return Outcome::Nothing;
    };
    let count = put_slots(&mut *row, before, d);
    let complete = d.index == d.count;
    row[lent::N] = d.count;
    row[lent::NEXT] = if complete { 0 } else { d.index + 1 };
    row[lent::VIEW] = d.view;
    row[lent::COUNT] = count as u32;
    if complete {
        Outcome::Complete
    } else {
        Outcome::Waiting
    }
}
