// One line, taken: framing, the reader of its type, its words, and what it does to the gatherer. The refusal, the whole answer, the
// gatherer and the walk all stand on this one way, so that the compiler makes one function of it; who wants no words or no table lends
// none, and then no entry of a GSV line is read.
#![tactic(auto)]

ghost use Rattle.std.specs.Prelude.{◌≡◌, ◌≤◌, ◌||◌, length, ◌==◌, nat_le};
ghost use Rattle.frame.specs.Answer.{parts};
ghost use Rattle.answer.specs.Sentence.{gsa_of, gsv_of, dispatch, answer};
ghost use Rattle.gather.specs.Table.{table_words};
ghost use Rattle.words.specs.Words.{word_count};
ghost use Rattle.intake.specs.Answer.{Takes};
ghost use Rattle.intake.specs.Code.{Tells, Quiet};

use frame::{Refusal, Sentence};
use gather::line::Outcome;
use gsa::{GsaHead, Mismatch};
use gsv::{GsvHead, GsvRecord, GsvTalker};
use sentence::Formatter;

// An accepted GSV line in brief: what stands in front of its entries, and what it did to its row.
#[derive(Clone, Copy)]
pub struct GsvLine {
    pub talker: GsvTalker,
    pub head: GsvHead,
    pub outcome: Outcome,
}

// A line in brief: accepted, with what is to be told of a GSV line; or refused.
pub type Taken = Result<Option<GsvLine>, Refusal>;

fn take_gsa(line: &[u8], x: Sentence, out: &mut [u64]) -> Taken
    requires { x.to ≤ length line.now }
    ensures { Quiet (gsa_of (parts line.now x)) out.old out.new result }
{
    let talker = x.talker;
    let data = gsa::do_parse_gsa(x.data(line))?;
    match gsa::settle(talker.0, talker.1, data.system) {
        Ok(system) => {
            let data = gsa::with_system(data, system);
            let head = GsaHead {
                mode: data.mode,
                fix: data.fix,
                dops: data.dops,
                system: data.system,
            };
            words::put_gsa(
                out,
                talker,
                head,
                data.satellites.items,
                data.satellites.count,
            );
            Ok(None)
        }
        Err(Mismatch(named, tail)) => Err(Refusal::SystemMismatch(named, tail)),
    }
}

// Whether anyone asks for the entries of a GSV line: room for words, or a table.
fn wanted(out: &[u64], table: &[u32]) -> bool
    ensures { result ≡ (nat_le word_count (length out.now) || length table.now == table_words) }
{
    words::WORDS <= out.len() || table.len() == gather::table::WORDS
}

fn take_gsv(line: &[u8], x: Sentence, out: &mut [u64], table: &mut [u32]) -> Taken
    requires { x.to ≤ length line.now }
    ensures { Tells (gsv_of (parts line.now x)) out.old out.new table.old table.new result }
{
    let letters = x.talker;
    let Some(talker) = gsv::talker_of(letters.0, letters.1) else {
        return Err(Refusal::UnknownTalker(letters));
    };
    let data = x.data(line);
    let (head, at) = gsv::do_parse_head(data)?;
    if !wanted(&*out, &*table) {
        return Ok(Some(GsvLine {
            talker,
            head,
            outcome: Outcome::NoRow,
        }));
    }
    let record = GsvRecord {
        talker,
        data: gsv::with_entries(data, at, head),
    };
    words::put_gsv(out, record);
    let outcome = gather::table::gather(table, record);
    Ok(Some(GsvLine {
        talker,
        head,
        outcome,
    }))
}

// A framed sentence, by its type. A refusal is not in words yet.
#[tactic(auto, unfolding(answer::specs::Sentence::dispatch))]
fn dispatch(line: &[u8], x: Sentence, out: &mut [u64], table: &mut [u32]) -> Taken
    requires { x.to ≤ length line.now }
    ensures { Tells (dispatch (parts line.now x)) out.old out.new table.old table.new result }
{
    let talker = x.talker;
    let data = x.data(line);
    match sentence::formatter_of(x.kind) {
        Formatter::Rmc => {
            words::put_rmc(out, talker, rmc::do_parse_rmc(data)?);
            Ok(None)
        }
        Formatter::Gsa => take_gsa(line, x, out),
        Formatter::Gsv => take_gsv(line, x, out, table),
        Formatter::Gga => {
            words::put_gga(out, talker, gga::do_parse_gga(data)?);
            Ok(None)
        }
        Formatter::Gll => {
            words::put_gll(out, talker, gll::do_parse_gll(data)?);
            Ok(None)
        }
        Formatter::Vtg => {
            words::put_vtg(out, talker, vtg::do_parse_vtg(data)?);
            Ok(None)
        }
        Formatter::Other => {
            words::put_other(out, talker, x.kind);
            Ok(None)
        }
    }
}

#[tactic(auto, using(sentence::proofs::Told::framed_within), unfolding(answer::specs::Sentence::answer))]
fn tell(line: &[u8], out: &mut [u64], table: &mut [u32]) -> Taken
    ensures { Tells (answer line.now) out.old out.new table.old table.new result }
{
    let x = frame::parse_nmea_sentence(line)?;
    dispatch(line, x, out, table)
}

// Takes any byte string: its words go into a buffer with room for them, an accepted GSV line into a table of the right length.
pub fn take(line: &[u8], out: &mut [u64], table: &mut [u32]) -> Taken
    ensures { Takes (answer line.now) out.old out.new table.old table.new result }
{
    let taken = tell(line, &mut *out, table);
    if let Err(why) = taken {
        words::put_refused(out, why);
    }
    taken
}
