// The LTL verdict.
#![tactic(auto)]

ghost use Rattle.std.specs.Prelude.{◌↔◌, ◌≤◌, T, length};
ghost use Rattle.table.specs.Node.{count};
ghost use Rattle.ltl.specs.Check.{ltl_rules};
ghost use Rattle.logic.specs.LtlMeaning.{LtlHoldsOn};
ghost use Rattle.ltl.specs.Table.{tree_of};
ghost use Rattle.rows.specs.Inner.Rows.{FitsRow, RowsOf};
ghost use Rattle.ltl_verdict.specs.Verdict.{LtlJudges};

use ltl::{Kind, LtlTable};
use rows::{Row, SignalRows};
use table::{FEW_NODES, NodeNo};
use trace::{MOST_LETTERS, Refusal, TraceView, Verdict};

// The rows of all nodes of a table, from node 0 up. That a row has room for the trace is a `requires` of three private functions: a type for such traces
// would be plainer only if the functions of rows took it too, which take any trace.
fn fill_rows(t: LtlTable<'_>, trace: TraceView<'_>, told: &mut [Row])
    requires { FitsRow trace.lead.now trace.cycle.now × (count t.numbers.now ≤ length told.old) }
    ensures { RowsOf trace.entry.lead.now trace.entry.cycle.now t.entry.numbers.now told.new }
{
    let mut signals = SignalRows::new(trace);
    for i in 0..t.nodes() {
        let node = t.node(NodeNo::from_index(i)).unwrap();
        told[i] = match node.kind {
            Kind::Var => signals.row(node.left),
            kind => {
                let a = told[usize::from(node.left)];
                let b = told[usize::from(node.right)];
                rows::node_row(kind, a, b, trace)
            }
        };
    }
}

// Whether a table of at most N nodes holds on a trace.
fn holds_within<const N: usize>(t: LtlTable<'_>, trace: TraceView<'_>) -> bool
    requires { FitsRow trace.lead.now trace.cycle.now × (count t.numbers.now ≤ N) × (N ≤ ltl_rules.most) }
    ensures { LtlHoldsOn (tree_of t.entry.numbers.now) trace.entry.lead.now trace.entry.cycle.now ↔ T result }
{
    let mut told = [0; N];
    fill_rows(t, trace, &mut told);
    rows::holds_first(told[t.root().index()], trace)
}

// Whether a table holds on a trace. Small tables, which are the rule, clear a small array.
fn ltl_holds(t: LtlTable<'_>, trace: TraceView<'_>) -> bool
    requires { FitsRow trace.lead.now trace.cycle.now }
    ensures { LtlHoldsOn (tree_of t.entry.numbers.now) trace.entry.lead.now trace.entry.cycle.now ↔ T result }
{
    if t.nodes() <= FEW_NODES {
        holds_within::<FEW_NODES>(t, trace)
    } else {
        holds_within::<{ ltl::MOST_NODES }>(t, trace)
    }
}

// The LTL verdict on an accepted table: refusals 9 and 16, then yes or no.
pub fn judge_ltl(t: LtlTable<'_>, trace: TraceView<'_>) -> Verdict
    ensures { LtlJudges t.entry.numbers.now trace.entry.lead.now trace.entry.cycle.now result }
{
    let letters = trace.size();
    if MOST_LETTERS < letters {
        return Err(Refusal::LongTrace);
    }
    if letters == 0 {
        return Err(Refusal::EmptyTrace);
    }
    trace::decided(ltl_holds(t, trace))
}

// Refusals 11 to 15, then 9, then 16.
pub fn ltl_verdict(t: &[u16], trace: TraceView<'_>) -> Verdict
    ensures { LtlJudges t.now trace.entry.lead.now trace.entry.cycle.now result }
{
    judge_ltl(LtlTable::new(t)?, trace)
}
