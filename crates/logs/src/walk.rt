// A walk: as many steps as it may take, or as there are lines left, counted.
ghost use Rattle.std.specs.Prelude.{◌≡◌, ◌<◌, ◌≤◌, length};
ghost use Rattle.gather.specs.Table.{fresh_table};
ghost use Rattle.fed.specs.Fed.{is_handed};
ghost use Rattle.logs.specs.Step.{longest};
ghost use Rattle.logs.specs.Walk.{grouped, walk_of};
ghost use Rattle.logs.specs.Answer.{walk_in, SaysWalk};
ghost use Rattle.logs.specs.Code.{tallied_by, Within, TakenAt, sort_in, outcome_in, gsv_in, Takes, TakesHead};

use crate::{line, step};
use frame::Refusal;
use gather::line::Outcome;
use gather::run;
use intake::{GsvLine, Taken};

// What was counted, and the place where the next line begins.
#[derive(Clone, Copy, Debug, Default, PartialEq, Eq)]
pub struct Counts {
    pub lines: usize,
    pub blank: usize,
    pub accepted: usize,
    pub refused: usize,
    pub groups: usize,
    pub next: usize,
}

// What a line counts as.
#[derive(Clone, Copy, Debug, PartialEq, Eq)]
pub enum Sort {
    Blank,
    Accepted,
    Refused,
}

// What the line at a place counts as, whether it hands out a group, and the place after it.
#[derive(Clone, Copy)]
pub struct LineTaken {
    pub sort: Sort,
    pub handed: bool,
    pub next: usize,
}

// Before the first line.
fn counts_at(place: usize) -> Counts
    ensures { result ≡ record { lines = 0; blank = 0; accepted = 0; refused = 0; groups = 0; next = place } }
{
    Counts {
        next: place,
        ..Counts::default()
    }
}

// One more line.
pub(crate) fn tally(c: Counts, sort: Sort, next: usize) -> Counts
    requires { Within c }
    ensures { result ≡ tallied_by c sort next }
{
    let lines = c.lines + 1;
    match sort {
        Sort::Blank => Counts {
            lines,
            blank: c.blank + 1,
            next,
            ..c
        },
        Sort::Accepted => Counts {
            lines,
            accepted: c.accepted + 1,
            next,
            ..c
        },
        Sort::Refused => Counts {
            lines,
            refused: c.refused + 1,
            next,
            ..c
        },
    }
}

pub(crate) fn with_group(c: Counts, handed: bool) -> Counts
    requires { c.groups ≤ longest }
    ensures { result ≡ grouped c handed }
{
    if handed {
        return Counts {
            groups: c.groups + 1,
            ..c
        };
    }
    c
}

// A row is complete.
fn is_handed(outcome: Outcome) -> bool
    ensures { result ≡ is_handed outcome }
{
    matches!(outcome, Outcome::Complete)
}

// The line at a place that is not the end, as it is taken, or none where it is blank; and the place after it. Its words are not asked for.
fn taken_at(log: &[u8], at: usize, words: &mut [u32]) -> (Option<Taken>, usize)
    requires { at < length log.now }
    ensures { TakenAt log.now at words.old words.new result }
{
    let bounds = line::bounds_at(log, at);
    if bounds.cut == at {
        return (None, bounds.next);
    }
    let taken = intake::take(&log[at..bounds.cut], &mut [], words);
    (Some(taken), bounds.next)
}

// What it counts as, and whether its row is complete.
fn line_taken(line: Option<Taken>, next: usize) -> LineTaken
    ensures { result ≡ record { sort = sort_in line; handed = is_handed (outcome_in line); next = next } }
{
    match line {
        None => LineTaken {
            sort: Sort::Blank,
            handed: false,
            next,
        },
        Some(Ok(None)) => LineTaken {
            sort: Sort::Accepted,
            handed: false,
            next,
        },
        Some(Ok(Some(gsv))) => LineTaken {
            sort: Sort::Accepted,
            handed: is_handed(gsv.outcome),
            next,
        },
        Some(Err(_)) => LineTaken {
            sort: Sort::Refused,
            handed: false,
            next,
        },
    }
}

// The line at a place, with the gatherer's words.
fn take_line(log: &[u8], at: usize, words: &mut [u32]) -> LineTaken
    requires { at < length log.now }
    ensures { Takes log.now at words.old words.new result }
{
    let (line, next) = taken_at(log, at, words);
    line_taken(line, next)
}

// At most `allowance` lines from a place on. The gatherer's words are changed in place.
pub fn walk(
    log: &[u8],
    place: usize,
    allowance: usize,
    words: &mut [u32],
) -> Result<Counts, Refusal>
    ensures { SaysWalk (walk_of log.now place allowance words.old) words.new result }
{
    step::start(log, place)?;
    let mut c = counts_at(place);
    for _ in 0..allowance {
        if log.len() <= c.next {
            break;
        }
        let t = take_line(log, c.next, &mut *words);
        c = with_group(tally(c, t.sort, t.next), t.handed);
    }
    Ok(c)
}

// The accepted GSV line that it is.
fn gsv_in(line: Option<Taken>) -> Option<GsvLine>
    ensures { result ≡ gsv_in line }
{
    match line {
        Some(Ok(gsv)) => gsv,
        _ => None,
    }
}

// The same, where runs are kept by their heads: whether a group is handed out does not turn on entries, so none is read.
fn count_line(log: &[u8], at: usize, heads: &mut [u32]) -> LineTaken
    requires { at < length log.now }
    ensures { TakesHead log.now at heads.old heads.new result }
{
    let (line, next) = taken_at(log, at, &mut []);
    let Some(gsv) = gsv_in(line) else {
        return line_taken(line, next);
    };
    let outcome = run::count(heads, gsv.talker, gsv.head);
    line_taken(Some(Ok(Some(GsvLine { outcome, ..gsv }))), next)
}

// The whole log from its start, with a fresh gatherer, of which the heads of its runs are enough.
pub fn totals(log: &[u8]) -> Result<Counts, Refusal>
    ensures { walk_in result ≡ (walk_of log.now 0 (length log.now) fresh_table).answer }
{
    step::start(log, 0)?;
    let mut heads = [0u32; run::WORDS];
    let mut c = counts_at(0);
    while c.next < log.len() {
        let t = count_line(log, c.next, &mut heads);
        c = with_group(tally(c, t.sort, t.next), t.handed);
    }
    Ok(c)
}
