// Places and lines of a log.
ghost use Rattle.std.specs.Prelude.{◌≡◌, ◌+◌, ◌<◌, ◌≤◌, min, length, drop};
ghost use Rattle.lines.specs.Places.{is_place, stretch};
ghost use Rattle.logs.specs.Code.{SaysLine, CutAt, Bounded, Saw, Clear};

use frame::Refusal;
use sentence::Record;

// A log has at most this many bytes.
pub const LONGEST: usize = 65536;

// Whether a step can begin there: 0, the length, or just after a line feed.
pub fn is_place(log: &[u8], place: usize) -> bool
    ensures { result ≡ is_place log.now place }
{
    if place == 0 {
        return true;
    }
    if place == log.len() {
        return true;
    }
    if log.len() < place {
        return false;
    }
    log[place - 1] == b'\n'
}

// How many bytes are looked at in one go.
const BLOCK: usize = 16;

// Whether a line feed was seen, with one byte more.
fn saw(feed: bool, b: u8) -> bool
    ensures { Saw feed b result }
{
    if b == b'\n' {
        return true;
    }
    feed
}

// Whether a line feed stands among the next bytes. It stops at none, so that it is compiled to look at all at once.
fn feeds(log: &[u8], at: usize) -> bool
    requires { at + 16 ≤ length log.now }
    ensures { Clear log.now at 16 result }
{
    let mut feed = false;
    for b in &log[at..at + BLOCK] {
        feed = saw(feed, *b);
    }
    feed
}

// A place from `at` on, behind no line feed that stands there.
fn skip(log: &[u8], at: usize) -> usize
    ensures { at + length (stretch (drop at log.now)) ≡ result + length (stretch (drop result log.now)) }
{
    let mut i = at;
    while i < log.len() {
        if log.len() - i < BLOCK {
            return i;
        }
        if feeds(log, i) {
            return i;
        }
        i += BLOCK;
    }
    i
}

// The place of the first line feed from `at` on, or the end.
fn line_end(log: &[u8], at: usize) -> usize
    ensures { result ≡ at + length (stretch (drop at log.now)) }
{
    let from = skip(log, at);
    for i in from..log.len() {
        if log[i] == b'\n' {
            return i;
        }
    }
    from.max(log.len())
}

// The line's end without a carriage return before it.
fn line_cut(log: &[u8], at: usize, end: usize) -> usize
    requires within { at ≤ length log.now }
    requires at_end { end ≡ at + length (stretch (drop at log.now)) }
    ensures { CutAt log.now at result }
{
    if end <= at {
        return end;
    }
    if log[end - 1] == b'\r' {
        return end - 1;
    }
    end
}

// The place after the line feed, or the end.
fn line_next(log: &[u8], end: usize) -> usize
    ensures { result ≡ min (end + 1) (length log.now) }
{
    if end < log.len() {
        return end + 1;
    }
    log.len()
}

// Where the bytes of a line end, and where the next line begins.
#[derive(Clone, Copy)]
pub(crate) struct Bounds {
    pub cut: usize,
    pub next: usize,
}

// The line at a place that is not the end goes from there to the cut.
pub(crate) fn bounds_at(log: &[u8], at: usize) -> Bounds
    requires { at < length log.now }
    ensures { Bounded log.now at result }
{
    let end = line_end(log, at);
    let cut = line_cut(log, at, end);
    let next = line_next(log, end);
    Bounds { cut, next }
}

// What a line of the log is: its answer, or none where it is blank.
pub type Line = Option<Result<Record, Refusal>>;

// The line at a place that is not the end, and the place after it.
pub(crate) fn line_at(log: &[u8], at: usize) -> (Line, usize)
    requires { at < length log.now }
    ensures { SaysLine log.now at result }
{
    let bounds = bounds_at(log, at);
    if bounds.cut == at {
        return (None, bounds.next);
    }
    let answer = sentence::parse_bytes(&log[at..bounds.cut]);
    (Some(answer), bounds.next)
}
