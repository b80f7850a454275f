// A later line of a run: both verdicts on its trace.
ghost use Rattle.std.specs.Prelude.{◌≡◌, ◌++◌, ◌+◌, ◌-◌, ◌≤◌, length};
ghost use Rattle.logic.specs.Written.{Written, spelled_out};
ghost use Rattle.answers.specs.Answer.{LaterAnswer};
ghost use Rattle.answers.specs.Inner.{TablesOf, PlacedWithin};
ghost use Rattle.run.specs.Later.{BothJudged, LaterDone};

use crate::OUT_ROOM;
use answers::{Verdicts, put_later};
use arrayvec::ArrayVec;
use line_one::Tables;
use logic::Letter;
use trace::{MOST_LETTERS, Refusal, TraceView};

// Both verdicts on a trace, by the tables of line 1.
fn judge_both(tables: &Tables, trace: TraceView<'_>) -> Verdicts
    ensures { BothJudged tables.now.psl.items tables.now.ltl.items trace.entry.lead.now trace.entry.cycle.now result }
{
    Verdicts {
        psl: psl_verdict::judge_psl(tables.psl(), trace),
        ltl: ltl_verdict::judge_ltl(tables.ltl(), trace),
    }
}

// Both verdicts on a line's trace, or its refusal. The reader is lent lists, as C lends it some, and tells how much of them is in use.
fn later_line(line: &[u8], tables: &Tables) -> Result<Verdicts, Refusal>
    ensures answers { (f : Written) → TablesOf f tables.now.psl.items tables.now.ltl.items → LaterAnswer (spelled_out f) line.now result }
    ensures within { PlacedWithin result }
{
    let mut lead: [Letter; MOST_LETTERS] = [0; MOST_LETTERS];
    let mut cycle: [Letter; MOST_LETTERS] = [0; MOST_LETTERS];
    let read = trace_lines::read_trace(line, &mut lead, &mut cycle)?;
    let trace = TraceView::new(&lead[..read.lead], &cycle[..read.cycle]);
    Ok(judge_both(tables, trace))
}

// The text of the answer to line `number`, above 1.
pub fn answer_later(line: &[u8], tables: &Tables, number: u64, out: &mut ArrayVec<u8, OUT_ROOM>)
    ensures { LaterDone line.now tables.now number out.old.items out.new.items }
{
    let answer = later_line(line, tables);
    put_later(out, number, answer)
}
