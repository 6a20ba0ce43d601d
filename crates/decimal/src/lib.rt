// Decimal places: a plain decimal within its digit limits, short or long, with its sign and the nearest float.
// One reader over the limits serves both lengths, and one power of ten all that scale.
#![tactic(auto)]

ghost use Rattle.std.specs.Prelude.{◌≡◌, ◌+◌, ◌*◌, ◌^◌, ◌≤◌, ◌<◌, min, drop};
ghost use Rattle.std.specs.Float.{binary32, binary64};
ghost use Rattle.std.specs.Float.Ieee.{round};
ghost use Rattle.text.specs.Answer.{Finds, itself, seen, held_as};
ghost use Rattle.decimal.specs.Decimal.{decimal};
ghost use Rattle.decimal.specs.Code.{run, at_end, minus_sign, unsigned_place};
ghost use Rattle.decimal.specs.Places.{signed, short_decimal, long_decimal};
ghost use Rattle.decimal.specs.Bits.{bits_of};
ghost use Rattle.decimal.specs.Answer.{limits_of, a_run, unsigned, a_decimal, a_short, a_long};

use text::{Fault, Parsed};

// The most digits that a decimal may have: in all, before the point and after it.
#[derive(Clone, Copy)]
struct Limits {
    all: u32,
    before: u32,
    after: u32,
}

const SHORT: Limits = Limits {
    all: 7,
    before: 7,
    after: 7,
};

// The most decimals of a decimal, and so the highest power of ten.
const DECIMALS: u32 = 9;

const LONG: Limits = Limits {
    all: 12,
    before: 3,
    after: DECIMALS,
};

// Ten to that power.
const BILLION: u64 = 1000000000;

// Ten to the power `k`: one, or ten times the power below, as the scope names the form.
fn tens(k: u32) -> u64
    requires { k ≤ 9 }
    ensures { result ≡ 10 ^ k }
{
    if k == 0 {
        return 1;
    }
    10 * tens(k - 1)
}

// Ten to the power `k`, up to the ninth, which stands for any above.
pub fn pow10(k: u32) -> u64
    ensures { result ≡ 10 ^ min k 9 }
{
    tens(k.min(DECIMALS))
}

// A run of digits: the number that it writes behind what stood before it, and how many there are.
#[derive(Clone, Copy)]
struct Run {
    value: u64,
    count: u32,
}

// Digits that go on from `value`, at most `most`.
fn digits(s: &[u8], at: usize, value: u64, most: u32) -> Parsed<Run>
    requires { (value + 1) * 10 ^ most ≤ 10000000000000000000 }
    ensures { Finds s.now at (run most value 0) (seen a_run) result }
{
    let mut v = value;
    let mut n: u32 = 0;
    for i in at..s.len() {
        let d = text::unit(s[i]);
        if 9 < d {
            return Ok((Run { value: v, count: n }, i));
        }
        if n == most {
            return Err(Fault::Number);
        }
        v = v * 10 + u64::from(d);
        n += 1;
    }
    Ok((Run { value: v, count: n }, at.max(s.len())))
}

// A comma or the end.
fn ends(s: &[u8], at: usize) -> bool
    ensures { result ≡ at_end (drop at s.now) }
{
    match s.get(at) {
        Some(&b) => b == b',',
        None => true,
    }
}

// A decimal place without its sign: its digits as one number, and how many of them stand after the point.
#[inline(always)]
fn unsigned_place(s: &[u8], at: usize, limits: Limits) -> Parsed<Option<Run>>
    requires before { limits.before ≤ limits.all }
    requires all { limits.all ≤ 19 }
    ensures { Finds s.now at (unsigned_place (limits_of limits)) (seen (held_as unsigned)) result }
{
    if ends(s, at) {
        return Ok((None, at));
    }
    let (whole, at) = digits(s, at, 0, limits.before)?;
    if whole.count == 0 {
        return Err(Fault::Number);
    }
    if ends(s, at) {
        return Ok((Some(Run { count: 0, ..whole }), at));
    }
    let Ok(at) = text::byte(s, at, b'.') else {
        return Err(Fault::Number);
    };
    let most = limits.after.min(limits.all - whole.count);
    let (all, at) = digits(s, at, whole.value, most)?;
    if all.count == 0 {
        return Err(Fault::Number);
    }
    if ends(s, at) {
        return Ok((Some(all), at));
    }
    Err(Fault::Number)
}

// Whether a minus sign stands there.
fn minus_sign(s: &[u8], at: usize) -> (bool, usize)
    ensures { Finds s.now at minus_sign itself (Ok result) }
{
    match text::byte(s, at, b'-') {
        Ok(next) => (true, next),
        Err(_) => (false, at),
    }
}

// A decimal: its sign, its digits as one number, and how many of them stand after the point.
#[derive(Clone, Copy)]
struct Decimal {
    minus: bool,
    size: u64,
    decimals: u32,
}

// A decimal place. A sign stands before digits, and not by itself. The compiler makes a reader of it for each length.
#[inline(always)]
fn decimal_place(s: &[u8], at: usize, limits: Limits) -> Parsed<Option<Decimal>>
    requires before { limits.before ≤ limits.all }
    requires all { limits.all ≤ 19 }
    ensures { Finds s.now at (decimal (limits_of limits)) (seen (held_as a_decimal)) result }
{
    let (minus, at) = minus_sign(s, at);
    let (digits, at) = unsigned_place(s, at, limits)?;
    match digits {
        Some(d) => {
            let d = Decimal {
                minus: minus,
                size: d.value,
                decimals: d.count,
            };
            Ok((Some(d), at))
        }
        None if minus => Err(Fault::Number),
        None => Ok((None, at)),
    }
}

// A short decimal: its digits as a whole number, its count of decimals, and the nearest f32.
#[derive(Clone, Copy)]
pub struct ShortDecimal {
    pub whole: i32,
    pub decimals: u32,
    pub value: f32,
}

// The f32 nearest to size / 10 ^ k, by one division of exact operands, and negated where `minus` says so.
fn nearest_f32(minus: bool, size: u32, k: u32) -> f32
    requires size { size < 10000000 }
    requires decimals { k ≤ 6 }
    ensures { result ≡ round binary32 minus size (10 ^ k) }
{
    let power = pow10(k) as u32;
    let quotient = (size as f32) / (power as f32);
    if minus { -quotient } else { quotient }
}

// `size` as a signed number, negated where `minus` says so.
fn whole_of(minus: bool, size: u32) -> i32
    requires { size < 10000000 }
    ensures { result ≡ signed size minus }
{
    let whole = size as i32;
    if minus { -whole } else { whole }
}

// A short decimal place: speed, course, variation, DOP.
pub fn short_decimal(s: &[u8], at: usize) -> Parsed<Option<ShortDecimal>>
    ensures { Finds s.now at short_decimal (seen (held_as a_short)) result }
{
    let (d, at) = decimal_place(s, at, SHORT)?;
    let Some(d) = d else {
        return Ok((None, at));
    };
    let size = d.size as u32;
    let short = ShortDecimal {
        whole: whole_of(d.minus, size),
        decimals: d.decimals,
        value: nearest_f32(d.minus, size, d.decimals),
    };
    Ok((Some(short), at))
}

// A long decimal: its sign, its digits, their count of decimals, the same in billionths, and the nearest f64.
#[derive(Clone, Copy)]
pub struct LongDecimal {
    pub minus: bool,
    pub size: u64,
    pub decimals: u32,
    pub billionths: u64,
    pub value: f64,
}

// The f64 nearest to so many billionths, by one division of exact operands, and negated where `minus` says so.
fn nearest_f64(minus: bool, billionths: u64) -> f64
    requires { billionths < 1000000000000 }
    ensures { result ≡ round binary64 minus billionths (10 ^ 9) }
{
    let value = ((billionths as i64) as f64) / (BILLION as f64);
    if minus { -value } else { value }
}

// A long decimal place: minutes of arc, seconds.
pub fn long_decimal(s: &[u8], at: usize) -> Parsed<Option<LongDecimal>>
    ensures { Finds s.now at long_decimal (seen (held_as a_long)) result }
{
    let (d, at) = decimal_place(s, at, LONG)?;
    let Some(d) = d else {
        return Ok((None, at));
    };
    let billionths = d.size * pow10(DECIMALS - d.decimals);
    let long = LongDecimal {
        minus: d.minus,
        size: d.size,
        decimals: d.decimals,
        billionths: billionths,
        value: nearest_f64(d.minus, billionths),
    };
    Ok((Some(long), at))
}

// The bits of an f32; of a NaN, which no decimal is, those of the quiet one.
pub fn bits_f32(x: f32) -> u32
    ensures { result ≡ bits_of binary32 0x7FC00000 x }
{
    if x == x { f32::to_bits(x) } else { 0x7FC00000 }
}

// The bits of an f64; of a NaN, which no decimal is, those of the quiet one.
pub fn bits_f64(x: f64) -> u64
    ensures { result ≡ bits_of binary64 0x7FF8000000000000 x }
{
    if x == x {
        f64::to_bits(x)
    } else {
        0x7FF8000000000000
    }
}
