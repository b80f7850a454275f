// The text of a run's answers: by functions and not by Display, of whose text no contract can speak.
#![tactic(auto)]

ghost use Rattle.std.specs.Prelude.{◌≡◌, ◌++◌};
ghost use Rattle.text.specs.Text.{text};
ghost use Rattle.text.specs.Spelling.{ending};
ghost use Rattle.printing.specs.Printed.{place_part, refused_text, verdict_text, trace_text};
ghost use Rattle.printing.specs.Inner.{TablePut};

use node_lines::put_line;
use table::{Node, NodeNo, nodes_of};
use text::put::{Sink, put_byte, put_number};
use trace::{Refusal, Verdict};

// A refusal's place behind its number, if it carries one, and the line's end.
fn put_place<S: Sink>(out: &mut S, place: Option<usize>)
    ensures { S.Put out.old (ending (place_part place) ++ text "\n") out.new }
{
    let Some(p) = place else {
        return out.put_text(b")\n");
    };
    put_byte(out, b' ');
    put_number(out, p as u64);
    out.put_text(b")\n");
}

// `(refused L R)`, or `(refused L R P)` with the place.
pub fn put_refused<S: Sink>(out: &mut S, line: u64, x: Refusal)
    ensures { S.Put out.old (refused_text line x) out.new }
{
    let (number, place) = x.told();
    out.put_text(b"(refused ");
    put_number(out, line);
    put_byte(out, b' ');
    put_number(out, u64::from(number));
    put_place(out, place);
}

// The word of a verdict.
#[tactic(auto, unfolding(crate::specs::Printed::verdict_text))]
fn word(v: Verdict) -> &'static [u8]
    ensures { result.now ≡ verdict_text v }
{
    match v {
        Ok(true) => b"yes",
        Ok(false) => b"no",
        Err(_) => b"none",
    }
}

// `(trace I psl V ltl W)`
pub fn put_trace<S: Sink>(out: &mut S, trace: u64, psl: Verdict, ltl: Verdict)
    ensures { S.Put out.old (trace_text trace psl ltl) out.new }
{
    out.put_text(b"(trace ");
    put_number(out, trace);
    out.put_text(b" psl ");
    out.put_text(word(psl));
    out.put_text(b" ltl ");
    out.put_text(word(ltl));
    out.put_text(b")\n");
}

// `(ltl S)` and the node lines of a table; nothing where it has more nodes than a table may have.
pub fn put_table<S: Sink>(out: &mut S, t: &[u16])
    ensures { TablePut S.Put t.now out.old out.new }
{
    let nodes = nodes_of(t);
    if ltl::MOST_NODES < nodes.len() {
        return;
    }
    out.put_text(b"(ltl ");
    put_number(out, nodes.len() as u64);
    out.put_text(b")\n");
    for (i, x) in nodes.iter().enumerate() {
        put_line(out, NodeNo::from_index(i), Node::from(*x));
    }
}
