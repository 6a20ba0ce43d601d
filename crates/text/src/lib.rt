// Reading from the front of a text: a byte, a letter, whole numbers, the text up to a byte.
// Each reader takes the whole text and a place in it, and answers the next place; past the end nothing stands.
#![tactic(auto)]

ghost use Rattle.std.specs.Prelude.{◌≡◌, ◌≤◌};
ghost use Rattle.text.specs.Reader.{char, one_of, letter_of, opt, until};
ghost use Rattle.text.specs.Number.{number, fixed, two_bytes, three_bytes};
ghost use Rattle.text.specs.Code.{unit};
ghost use Rattle.text.specs.Answer.{Finds, next, part, itself, seen, held};

// Why a reader hands nothing over: what it reads does not stand there, from which its caller may recover; or a refusal.
#[derive(Clone, Copy, Debug, PartialEq, Eq)]
pub enum Fault {
    NoMatch,
    UnknownType,
    Number,
    BadTime,
}

// What a reader found, and the next place.
pub type Parsed<T> = Result<(T, usize), Fault>;

// The byte `b`: the place behind it.
pub fn byte(s: &[u8], at: usize, b: u8) -> Result<usize, Fault>
    ensures { Finds s.now at (char b) next result }
{
    match s.get(at) {
        Some(&c) if c == b => Ok(at + 1),
        _ => Err(Fault::NoMatch),
    }
}

// One of two letters.
pub fn one_of(s: &[u8], at: usize, a: u8, b: u8) -> Parsed<u8>
    ensures { Finds s.now at (one_of a b) itself result }
{
    match s.get(at) {
        Some(&c) if c == a => Ok((c, at + 1)),
        Some(&c) if c == b => Ok((c, at + 1)),
        _ => Err(Fault::NoMatch),
    }
}

// One of `letters`.
pub fn one_among(s: &[u8], at: usize, letters: &[u8]) -> Parsed<u8>
    ensures { Finds s.now at (letter_of letters.now) itself result }
{
    match s.get(at) {
        Some(c) if letters.contains(c) => Ok((*c, at + 1)),
        _ => Err(Fault::NoMatch),
    }
}

// The text up to the first byte `b`: the place of that byte.
pub fn until(s: &[u8], at: usize, b: u8) -> Result<usize, Fault>
    ensures { Finds s.now at (until b) (part s.now at) result }
{
    for i in at..s.len() {
        if s[i] == b {
            return Ok(i);
        }
    }
    Err(Fault::NoMatch)
}

// One or more digits that write a number up to `max`.
pub fn number(s: &[u8], at: usize, max: u32) -> Parsed<u32>
    ensures { Finds s.now at (number max) itself result }
{
    if s.len() <= at {
        return Err(Fault::NoMatch);
    }
    let first = unit(s[at]);
    if 9 < first {
        return Err(Fault::NoMatch);
    }
    if max < first {
        return Err(Fault::NoMatch);
    }
    let top = u64::from(max);
    let mut value = u64::from(first);
    for i in at + 1..s.len() {
        let d = unit(s[i]);
        if 9 < d {
            return Ok((value as u32, i));
        }
        value = value * 10 + u64::from(d);
        if top < value {
            return Err(Fault::NoMatch);
        }
    }
    Ok((value as u32, s.len()))
}

// A number up to `max`, if one stands there.
pub fn opt_number(s: &[u8], at: usize, max: u32) -> (Option<u32>, usize)
    ensures { Finds s.now at (opt (number max)) (seen held) (Ok result) }
{
    match number(s, at, max) {
        Ok((n, next)) => (Some(n), next),
        Err(_) => (None, at),
    }
}

// What a byte counts as a digit; more than nine where it is none. Both answers are one difference that wraps.
pub fn unit(b: u8) -> u32
    ensures { result ≡ unit b }
{
    if b < b'0' {
        return (b + 208) as u32;
    }
    (b - b'0') as u32
}

// Two bytes: digits, or `+` and a digit.
pub fn two(s: &[u8], at: usize) -> Parsed<u32>
    ensures { Finds s.now at two_bytes itself result }
{
    fixed_width::<2>(s, at)
}

// Three bytes: digits, or `+` and digits, up to 255.
pub fn three(s: &[u8], at: usize) -> Parsed<u32>
    ensures { Finds s.now at three_bytes itself result }
{
    fixed_width::<3>(s, at)
}

// `N` bytes, two or more: digits, or `+` and digits, up to 255.
fn fixed_width<const N: usize>(s: &[u8], at: usize) -> Parsed<u32>
    requires { 2 ≤ N }
    ensures { Finds s.now at (fixed N 255) itself result }
{
    if s.len() < N {
        return Err(Fault::NoMatch);
    }
    if s.len() - N < at {
        return Err(Fault::NoMatch);
    }
    let mut value = unit(s[at]);
    if 9 < value {
        if s[at] != b'+' {
            return Err(Fault::NoMatch);
        }
        value = 0;
    }
    for i in at + 1..at + N {
        let d = unit(s[i]);
        if 9 < d {
            return Err(Fault::NoMatch);
        }
        value = value * 10 + d;
        if 255 < value {
            return Err(Fault::NoMatch);
        }
    }
    Ok((value, at + N))
}
