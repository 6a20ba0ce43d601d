// The table: a row for each system, one behind the other. A line changes its own row, and no other.
ghost use Rattle.std.specs.Prelude.{◌≡◌};
ghost use Rattle.gsv.specs.Answer.{talker, gsv_sentence};
ghost use Rattle.rows.specs.Key.{source_from, row_from};
ghost use Rattle.rows.specs.Line.{line_of};
ghost use Rattle.gather.specs.Answer.{source};
ghost use Rattle.gather.specs.Table.{Gathers};

use crate::line::Outcome;
use crate::{lent, line};
use gsv::{GnssType, GsvRecord, GsvTalker};

// How many rows a table has: one for each system.
pub const ROWS: usize = 6;

// And how many words.
pub const WORDS: usize = ROWS * lent::ROW;

// What a run, and so a group, is gathered from.
#[derive(Clone, Copy, Debug, PartialEq, Eq)]
pub struct Source {
    pub system: GnssType,
}

// What the lines of a talker are gathered from.
pub fn source_of(t: GsvTalker) -> Source
    ensures { source result ≡ source_from (talker t) }
{
    let system = gsv::gnss_type(t);
    Source { system }
}

// The row of a source.
pub fn row_of(s: Source) -> usize
    ensures { result ≡ row_from (source s) }
{
    let system = s.system;
    let number = gsv::system_number(system);
    number as usize - 1
}

// What an accepted GSV line does to the table: only its own row changes.
pub fn gather(table: &mut [u32], line: GsvRecord) -> Outcome
    ensures { Gathers table.old table.new (line_of (gsv_sentence line)) result }
{
    if table.len() != WORDS {
        return Outcome::NoRow;
    }
    let talker = line.talker;
    let key = row_of(source_of(talker));
    let at = key * lent::ROW;
    let end = at + lent::ROW;
    line::put(&mut table[at..end], line)
}
