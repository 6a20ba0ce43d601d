// Runs by their heads alone. Whether a group is complete does not turn on its entries, so who only counts groups keeps none.
ghost use Rattle.std.specs.Prelude.{◌≡◌, ◌<◌, length};
ghost use Rattle.rows.specs.Key.{row_count};
ghost use Rattle.gsv.specs.Answer.{talker as talker_is, head_of};
ghost use Rattle.gather.specs.Heads.{run_stands, run_after, head_words, run_at, set_run, GathersHead};
ghost use Rattle.gather.specs.Code.{runs_on};

use crate::line::Outcome;
use crate::{lent, table};
use gsv::{GsvHead, GsvTalker};

// n, the number waited for, 0 where no run stands, and the in-view count.
#[derive(Clone, Copy, Debug, PartialEq, Eq)]
pub struct Run {
    pub n: u32,
    pub next: u32,
    pub view: u32,
}

// A run after a line, and what the line did.
#[derive(Clone, Copy, Debug, PartialEq, Eq)]
pub struct RunAfter {
    pub run: Run,
    pub handed: Outcome,
}

// Whether a line can leave this run.
pub(crate) fn stands(run: Run) -> bool
    ensures { result ≡ run_stands run }
{
    if run.next < 2 {
        return false;
    }
    if run.n < run.next {
        return false;
    }
    run.n <= lent::LINES
}

// Whether a line starts a run or goes on with this one.
pub(crate) fn runs(run: Run, h: GsvHead) -> bool
    ensures { result ≡ runs_on run (head_of h) }
{
    if h.index == 1 {
        if h.count < 1 {
            return false;
        }
        return h.count <= lent::LINES;
    }
    if !stands(run) {
        return false;
    }
    if h.count != run.n {
        return false;
    }
    if h.index != run.next {
        return false;
    }
    h.view == run.view
}

// What a line of this head does to a run.
fn follow(run: Run, h: GsvHead) -> RunAfter
    ensures { result ≡ run_after run (head_of h) }
{
    let none = Run {
        n: 0,
        next: 0,
        view: 0,
    };
    if !runs(run, h) {
        return RunAfter {
            run: none,
            handed: Outcome::Nothing,
        };
    }
    if h.index == h.count {
        return RunAfter {
            run: none,
            handed: Outcome::Complete,
        };
    }
    RunAfter {
        run: Run {
            n: h.count,
            next: h.index + 1,
            view: h.view,
        },
        handed: Outcome::Waiting,
    }
}

// The words of a run: its three numbers, where a row has them too.
const RUN: usize = 3;

// How many words the heads of a table's rows have.
pub const WORDS: usize = table::ROWS * RUN;

// The run of a row.
fn run_at(heads: &[u32], row: usize) -> Run
    requires heads { length heads.now ≡ head_words }
    requires row { row < row_count }
    ensures { result ≡ run_at heads.now row }
{
    let at = row * RUN;
    Run {
        n: heads[at],
        next: heads[at + lent::NEXT],
        view: heads[at + lent::VIEW],
    }
}

fn set_run(heads: &mut [u32], row: usize, run: Run)
    requires heads { length heads.old ≡ head_words }
    requires row { row < row_count }
    ensures { heads.new ≡ set_run heads.old row run }
{
    let at = row * RUN;
    heads[at] = run.n;
    heads[at + lent::NEXT] = run.next;
    heads[at + lent::VIEW] = run.view;
}

// What an accepted GSV line with this head does to the words of heads, whatever they hold.
pub fn count(heads: &mut [u32], talker: GsvTalker, head: GsvHead) -> Outcome
    ensures { GathersHead heads.old heads.new (talker_is talker) (head_of head) result }
{
    if heads.len() != WORDS {
        return Outcome::NoRow;
    }
    let row = table::row_of(table::source_of(talker));
    let after = follow(run_at(&*heads, row), head);
    let left = after.run;
    set_run(&mut *heads, row, left);
    after.handed
}
