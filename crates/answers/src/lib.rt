// What a run answers to its lines: the first is a formula, each later one a trace.
#![tactic(auto)]

ghost use Rattle.std.specs.Prelude.{◌-◌};
ghost use Rattle.answers.specs.Answer.{later_text};

use printing::{put_refused, put_trace};
use text::put::Sink;
use trace::{Refusal, Verdict};

// Both verdicts on a trace.
#[derive(Clone, Copy, Debug, PartialEq, Eq)]
pub struct Verdicts {
    pub psl: Verdict,
    pub ltl: Verdict,
}

// The text of the answer to a line above 1: the second line is the first trace line. By functions, as `text::put` says.
pub fn put_later<S: Sink>(out: &mut S, number: u64, answer: Result<Verdicts, Refusal>)
    ensures { S.Put out.old (later_text (number - 1) answer) out.new }
{
    let trace = number.saturating_sub(1);
    match answer {
        Ok(v) => put_trace(out, trace, v.psl, v.ltl),
        Err(x) => put_refused(out, trace + 1, x),
    }
}
