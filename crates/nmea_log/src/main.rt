// Counts a log that it reads from standard input: its lines, of these blank, accepted and refused, and its satellite groups.
#![tactic(auto)]

ghost use Rattle.std.specs.Prelude.{◌≤◌, ◌<◌, length, take, IfErr, IfOk, IfSome, OnOk};
ghost use Rattle.std.specs.Io.KnownBytes.{Appends, Consumes, IsAtEnd};
ghost use Rattle.nmea_log.specs.Code.{TellsNothing};
ghost use Rattle.nmea_log.specs.Told.{told_of};

use logs::line::LONGEST;
use logs::walk::totals;
use std::io::{Read, Write};
use std::process::ExitCode;
use std::{fmt, io};

// One byte more than a log may have, so that a longer one shows.
const SPACE: usize = LONGEST + 1;

// Reads the input to its end, or until the space is full; answers how many bytes that were. A read that fails is no end.
fn read_log<R: Read>(input: &mut R, space: &mut [u8]) -> io::Result<usize>
    ensures room { IfOk result (λ n. n ≤ length space.new) }
    ensures bytes { IfOk result (λ n. Consumes (R.remaining input.old) (R.remaining input.new) (take n space.new)) }
    ensures end { IfOk result (λ n. n < length space.new → IsAtEnd (R.remaining input.new)) }
{
    let mut done = 0;
    while done < space.len() {
        match input.read(&mut space[done..])? {
            0 => break,
            n => done += n,
        }
    }
    Ok(done)
}

// The totals of a log, or its refusal, on a line.
fn tell<W: Write>(out: &mut W, log: &[u8]) -> io::Result<()>
    ensures { OnOk result (Appends (W.contents out.old) (W.contents out.new) (told_of log.now)) }
{
    match totals(log) {
        Ok(c) => writeln!(
            out,
            "lines {} blank {} accepted {} refused {} groups {}",
            c.lines, c.blank, c.accepted, c.refused, c.groups
        ),
        Err(why) => writeln!(out, "refused {}", why.number()),
    }
}

// Where a run failed, and why.
#[derive(Debug, Drop)]
enum Failure {
    Input(io::Error),
    Output(io::Error),
}

impl fmt::Display for Failure {
    fn fmt<W: fmt::Write>(&self, f: &mut fmt::Formatter<W>) -> fmt::Result {
        match self {
            Failure::Input(why) => write!(f, "standard input: {why}"),
            Failure::Output(why) => write!(f, "standard output: {why}"),
        }
    }
}

// Reads a log and tells it. One that was not read whole is not counted.
fn count<R: Read, W: Write>(input: &mut R, out: &mut W) -> Result<(), Failure>
    ensures told { OnOk result (IfSome (R.remaining input.old) (λ log. Appends (W.contents out.old) (W.contents out.new) (told_of log))) }
    ensures unread { IfErr result (λ e. TellsNothing e (W.contents out.old) (W.contents out.new)) }
{
    let mut space = [0u8; SPACE];
    let n = read_log(input, &mut space).map_err(Failure::Input)?;
    tell(out, &space[..n]).map_err(Failure::Output)
}

fn main(rt: HostRuntime) -> ExitCode {
    match count(&mut rt.stdin(), &mut rt.stdout()) {
        Ok(()) => ExitCode::SUCCESS,
        Err(failure) => {
            // Where that fails too, nobody is left to tell.
            let _ = eprintln!(rt; "{failure}");
            ExitCode::FAILURE
        }
    }
}
