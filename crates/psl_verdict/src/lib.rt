// The PSL verdict.
#![tactic(auto)]

ghost use Rattle.std.specs.Prelude.{◌≡◌, ◌↔◌, ◌≤◌, T};
ghost use Rattle.trace.specs.Limits.{most_letters};
ghost use Rattle.logic.specs.Trace.{size};
ghost use Rattle.logic.specs.Meaning.{HoldsOn};
ghost use Rattle.psl.specs.Table.{formula_of};
ghost use Rattle.psl.specs.Nodes.{boolean, formula};
ghost use Rattle.logic.specs.Empty.{on_empty};
ghost use Rattle.logic.specs.Translation.{tree_b};
ghost use Rattle.rows.specs.Inner.Rows.{TellsOn};
ghost use Rattle.psl_verdict.specs.Inner.Rows.{TellsFormula};
ghost use Rattle.psl_verdict.specs.Verdict.{PslJudges};

use psl::{BooleanNode, BooleanParts, FormulaNode, FormulaParts, PslTable};
use rows::{ALWAYS, Row, SignalRows};
use trace::{MOST_LETTERS, Refusal, TraceView, Verdict};

// The row of a Boolean. These recursions stand beside those of the translator: their values are rows or truths and not nodes, and one fold with a closure for each kind is no plainer. What is behind `&mut` may be changed as a whole, so each says that the rows stay those of the trace.
fn boolean_row(n: BooleanNode<'_>, signals: &mut SignalRows<'_>) -> Row
    ensures same_trace { signals.new.trace ≡ signals.old.trace }
    ensures tells { TellsOn signals.old.trace result (tree_b (boolean n.entry)) }
{
    match n.parts() {
        BooleanParts::True => ALWAYS,
        BooleanParts::Var(k) => signals.row(k),
        BooleanParts::Bnot(b) => !boolean_row(b, signals),
        BooleanParts::Band(b, c) => boolean_row(b, signals) & boolean_row(c, signals),
    }
}

// The row of a formula's translation, by the rows of accept and reject.
// These stay two parameters: one struct for both made the typical verdict 6% slower.
fn formula_row(n: FormulaNode<'_>, a: Row, r: Row, signals: &mut SignalRows<'_>) -> Row
    ensures same_trace { signals.new.trace ≡ signals.old.trace }
    ensures tells { TellsFormula signals.old.trace (formula n.entry) a r result }
{
    match n.parts() {
        FormulaParts::Weak(b) | FormulaParts::Strong(b) => {
            rows::gate(a, boolean_row(b, signals), r)
        }
        FormulaParts::Not(f) => !formula_row(f, r, a, signals),
        FormulaParts::And(f, g) => formula_row(f, a, r, signals) & formula_row(g, a, r, signals),
        FormulaParts::Next(f) => {
            let x = formula_row(f, a, r, signals);
            rows::gate(a, rows::next_row(x, signals.trace), r)
        }
        FormulaParts::Until(f, g) => {
            let x = formula_row(f, a, r, signals);
            let y = formula_row(g, a, r, signals);
            rows::until_row(x, y, signals.trace)
        }
        FormulaParts::Abort(f, b) => {
            let x = boolean_row(b, signals);
            formula_row(f, rows::gate(a, x, r), r, signals)
        }
    }
}

// A formula on the empty trace: a strong, a next and an until fail.
#[tactic(auto, unfolding(logic::specs::Empty::on_empty))]
fn on_empty(n: FormulaNode<'_>) -> bool
    ensures { result ≡ on_empty (formula n.entry) }
{
    match n.parts() {
        FormulaParts::Weak(_) => true,
        FormulaParts::Not(f) => !on_empty(f),
        FormulaParts::And(f, g) => on_empty(f) & on_empty(g),
        FormulaParts::Abort(f, _) => on_empty(f),
        FormulaParts::Strong(_) | FormulaParts::Next(_) | FormulaParts::Until(_, _) => false,
    }
}

// Whether an accepted table holds on a trace: the translation's row, with nothing accepted or rejected yet. ltl_holds makes the row of every node instead: what both share is in rows.
fn psl_holds(t: PslTable<'_>, trace: TraceView<'_>) -> bool
    requires { size trace.lead.now trace.cycle.now ≤ most_letters }
    ensures { HoldsOn (formula_of t.entry.numbers.now) trace.entry.lead.now trace.entry.cycle.now ↔ T result }
{
    let root = FormulaNode::root(t);
    if trace.size() == 0 {
        return on_empty(root);
    }
    let mut signals = SignalRows::new(trace);
    rows::holds_first(formula_row(root, 0, 0, &mut signals), trace)
}

// The PSL verdict on an accepted table: refusal 9, then yes or no.
// It stays beside judge_ltl, which also refuses the empty trace: a trait for both would name each step that they do not share.
pub fn judge_psl(t: PslTable<'_>, trace: TraceView<'_>) -> Verdict
    ensures { PslJudges t.entry.numbers.now trace.entry.lead.now trace.entry.cycle.now result }
{
    if MOST_LETTERS < trace.size() {
        return Err(Refusal::LongTrace);
    }
    trace::decided(psl_holds(t, trace))
}

// Refusals 1 to 8, then 9. One line, as its twin of LTL: the contracts are of two meanings.
pub fn psl_verdict(t: &[u16], trace: TraceView<'_>) -> Verdict
    ensures { PslJudges t.now trace.entry.lead.now trace.entry.cycle.now result }
{
    judge_psl(PslTable::new(t)?, trace)
}
