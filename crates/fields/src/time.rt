// The time of day.
ghost use Rattle.std.specs.Prelude.{◌≡◌, ℕ, List, ◌≤◌, ◌*◌, ◌-◌, ◌^◌};
ghost use Rattle.text.specs.Answer.{Finds, seen};
ghost use Rattle.fields.specs.Time.{clock, hms, opt_hms};
ghost use Rattle.fields.specs.Answer.{time_of, time_held};

use decimal::LongDecimal;
use text::{Fault, Parsed};

#[derive(Clone, Copy)]
pub struct TimeOfDay {
    pub hour: u32,
    pub minute: u32,
    pub second: u32,
    pub nanosecond: u32,
}

// What hour, minute and seconds make, at whatever place: the ranges first, then BadTime.
fn on_clock(hour: u32, minute: u32, d: LongDecimal) -> Result<TimeOfDay, Fault>
    requires decimals { d.decimals ≤ 9 }
    requires billionths { d.billionths ≡ d.size * 10 ^ (9 - d.decimals) }
    ensures { (s : List ℕ) (at : ℕ) → Finds s at (clock hour minute d.size d.decimals) (λ t. (time_of t, at)) result }
{
    if 24 <= hour {
        return Err(Fault::NoMatch);
    }
    if 60 <= minute {
        return Err(Fault::NoMatch);
    }
    let all = d.billionths;
    let second = all / 1000000000;
    if 60 <= second {
        return Err(Fault::NoMatch);
    }
    let nanosecond = all % 1000000000;
    if 1000000000 <= nanosecond {
        return Err(Fault::BadTime);
    }
    Ok(TimeOfDay {
        hour: hour,
        minute: minute,
        second: second as u32,
        nanosecond: nanosecond as u32,
    })
}

// Hour, minute and seconds.
pub fn parse_hms(s: &[u8], at: usize) -> Parsed<TimeOfDay>
    ensures { Finds s.now at hms (seen time_of) result }
{
    let (hour, at) = text::two(s, at)?;
    let (minute, at) = text::two(s, at)?;
    let (seconds, at) = decimal::long_decimal(s, at)?;
    let seconds = seconds.ok_or(Fault::NoMatch)?;
    if seconds.minus {
        return Err(Fault::NoMatch);
    }
    let time = on_clock(hour, minute, seconds)?;
    Ok((time, at))
}

// A time, if one stands there.
pub fn opt_hms(s: &[u8], at: usize) -> Parsed<Option<TimeOfDay>>
    ensures { Finds s.now at opt_hms (seen time_held) result }
{
    match parse_hms(s, at) {
        Ok((time, next)) => Ok((Some(time), next)),
        Err(fault) => match fault {
            Fault::NoMatch => Ok((None, at)),
            _ => Err(fault),
        },
    }
}
