// Runs 01's worked log as `nmea_log` does not: in parts, with a table carried on, from bad places, step by step. Each row of a table
// is a case, and is written with the whole of what came of it; what `stdout` expects was worked out from 01's words.
#![tactic(auto)]

use Case::{Step, Walk};
use frame::Refusal;
use gather::line::Outcome;
use gather::{lent, table};
use logs::step::Stepped;
use logs::walk::Counts;
use logs::{step, walk};
use std::io;

// A walk or a step from a place of the log, with the table that the first lines leave.
#[derive(Clone, Copy)]
enum Case {
    Walk {
        lines: usize,
        place: usize,
        allowance: usize,
    },
    Step {
        lines: usize,
        place: usize,
    },
}

#[rattlefmt::skip]
const CASES: [Case; 14] = [
    // Allowances: above the lines left, none, two.
    Walk { lines: 0, place: 0, allowance: 9 },
    Walk { lines: 0, place: 0, allowance: 0 },
    Walk { lines: 0, place: 0, allowance: 2 },
    // Behind the second line, with the table carried on and with a fresh one.
    Walk { lines: 2, place: 138, allowance: 9 },
    Walk { lines: 0, place: 138, allowance: 9 },
    // Places: within a line, past the end, the length.
    Walk { lines: 0, place: 3, allowance: 9 },
    Walk { lines: 0, place: 218, allowance: 9 },
    Walk { lines: 0, place: 217, allowance: 9 },
    // The end; the third line, which makes a group, and the same with no line before it.
    Step { lines: 0, place: 217 },
    Step { lines: 2, place: 138 },
    Step { lines: 0, place: 138 },
    // The blank line, the line that is refused, a place within a line.
    Step { lines: 0, place: 198 },
    Step { lines: 0, place: 199 },
    Step { lines: 0, place: 3 },
];

// 01's worked log.
const LOG: &[u8] = b"\
$GPGSV,3,1,11,03,03,111,00,04,15,270,00,06,01,010,00,13,06,292,00*74\n\
$GPGSV,3,2,11,14,25,170,00,16,57,208,39,18,67,296,40,19,40,246,00*74\n\
$GPGSV,3,3,11,22,42,067,42,24,14,311,43,27,05,244,00,,,,*4D\n\
\n\
$GPGSA,A,1,,,,*33\n";

type Table = [u32; table::WORDS];

// Leaves in a fresh table what the first lines of the log leave. It is lent: handed back, it would be copied.
fn take_first(lines: usize, table: &mut Table) {
    let _ = walk::walk(LOG, 0, lines, table);
}

// The refusal's number, and the place that it carries.
fn tell_refusal(rt: &impl Print, why: Refusal) -> io::Result<()> {
    print!(rt; " refused {}", why.number())?;
    if let Refusal::BadPlace(place) = why {
        print!(rt; " {place}")?;
    }
    Ok(())
}

// Lines, of these blank, accepted, refused; groups, and the next place.
fn tell_walk(rt: &impl Print, walked: Result<Counts, Refusal>) -> io::Result<()> {
    match walked {
        Ok(c) => {
            print!(rt;
                " {} {} {} {} {} {}",
                c.lines, c.blank, c.accepted, c.refused, c.groups, c.next
            )
        }
        Err(why) => tell_refusal(rt, why),
    }
}

// Of the first row, which is that of GPS: n, the count in view, how many entries, and of these the first and the eleventh.
fn tell_group(rt: &impl Print, table: &Table) -> io::Result<()> {
    let first = table[lent::HEAD];
    let eleventh = table[lent::HEAD + 10 * lent::CELL];
    print!(rt;
        " group {} {} {} {first} {eleventh}",
        table[lent::N],
        table[lent::VIEW],
        table[lent::COUNT]
    )
}

// A line and the next place, or the end and its place; and the group, where the line hands one out.
fn tell_step(rt: &impl Print, stepped: Result<Stepped, Refusal>, table: &Table) -> io::Result<()> {
    match stepped {
        Ok(Stepped::End(place)) => print!(rt; " end {place}"),
        Ok(Stepped::Line(_, outcome, next)) => {
            print!(rt; " line {next}")?;
            if let Outcome::Complete = outcome {
                tell_group(rt, table)?;
            }
            Ok(())
        }
        Err(why) => tell_refusal(rt, why),
    }
}

fn tell(rt: &impl Print, case: Case) -> io::Result<()> {
    let mut table = [0; table::WORDS];
    match case {
        Walk {
            lines,
            place,
            allowance,
        } => {
            print!(rt; "walk {lines} {place} {allowance} =")?;
            take_first(lines, &mut table);
            tell_walk(rt, walk::walk(LOG, place, allowance, &mut table))
        }
        Step { lines, place } => {
            print!(rt; "step {lines} {place} 0 =")?;
            take_first(lines, &mut table);
            let stepped = step::step(LOG, place, &mut table);
            tell_step(rt, stepped, &table)
        }
    }
}

fn main(rt: HostRuntime) -> io::Result<()> {
    for case in CASES {
        tell(&rt, case)?;
        println!(rt; "")?;
    }
    Ok(())
}
