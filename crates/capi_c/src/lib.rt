// What C and Rust link: the functions of `capi` under their own names, each with the same clauses. No crate can stand on a static library.
#![tactic(auto)]

ghost use Rattle.std.specs.Prelude.{◌≡◌, ◌≤◌, ◌↔◌};
ghost use Rattle.std.proofs.Math.Option.{none};
ghost use Rattle.answer.specs.Sentence.{answer, verdict_of};
ghost use Rattle.words.specs.Words.{refusal_number};
ghost use Rattle.capi.specs.Answer.{Answered};
ghost use Rattle.capi.specs.Lend.{Freshened, GatheredLine, RowRead};
ghost use Rattle.capi.specs.Totals.{WalkedAll};

// The number of a line's refusal, at most 11; 0 exactly if it is accepted.
#[unsafe(no_mangle)]
pub extern "C" fn nmea_refusal(line: &[u8]) -> u32
    ensures number { result ≡ refusal_number (answer line.now) }
    ensures accepted { (result ≡ 0) ↔ (verdict_of (answer line.now) ≡ none) }
    ensures most { result ≤ 11 }
{
    capi::nmea_refusal(line)
}

// The whole answer to a line in the first 40 words of a buffer, and 0; or 255 where the buffer is shorter.
#[unsafe(no_mangle)]
pub extern "C" fn nmea_answer(line: &[u8], out: &mut [u64]) -> u32
    ensures { Answered line.now out.old out.new result }
{
    capi::nmea_answer(line, out)
}

// Walks the whole log from its start with a fresh gatherer. Lines, blank, accepted, refused and groups in the first five words, and 0; or
// the number of the log's refusal, or 255 where the buffer is shorter, and nothing written.
#[unsafe(no_mangle)]
pub extern "C" fn nmea_walk(log: &[u8], out: &mut [u64]) -> u32
    ensures { WalkedAll log.now out.old out.new result }
{
    capi::totals::nmea_walk(log, out)
}

// Makes a table fresh: every word 0. A table of another length is left as it is, and 255.
#[unsafe(no_mangle)]
pub extern "C" fn nmea_fresh(table: &mut [u32]) -> u32
    ensures { Freshened table.old table.new result }
{
    capi::lend::nmea_fresh(table)
}

// Takes a line: its whole answer in the first 40 words, and what it does to the table, as a number. 255: too few words or a table of
// another length, and nothing written.
#[unsafe(no_mangle)]
pub extern "C" fn nmea_gather(line: &[u8], out: &mut [u64], table: &mut [u32]) -> u32
    ensures { GatheredLine line.now out.old out.new table.old table.new result }
{
    capi::lend::nmea_gather(line, out, table)
}

// Reads a row of a table: its system, n, the number waited for, in view, count and 36 entries in the first 293 words. Too few words, a
// table of another length, a row that it has not, or one with more than 36 entries: 255, and nothing written.
#[unsafe(no_mangle)]
pub extern "C" fn nmea_row(table: &[u32], row: usize, out: &mut [u64]) -> u32
    ensures { RowRead table.now row out.old out.new result }
{
    capi::lend::nmea_row(table, row, out)
}
