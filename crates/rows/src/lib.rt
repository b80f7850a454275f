// Rows: the truths of an LTL tree at all moments of a trace, in one word. not, and, or are one operation of the machine; RowLaw has what they tell.
#![tactic(auto)]

ghost use Rattle.std.specs.Prelude.{length, ◌≡◌, ℕ, ◌%◌, ◌<◌, ◌≤◌, T, ◌↔◌, List, ◌++◌, ◌≢◌, Some, set};
ghost use Rattle.logic.specs.Trace.{size};
ghost use Rattle.logic.specs.Letter.{bit, signals};
ghost use Rattle.logic.specs.Tree.{Ltl, lvar, lnot, land, lor, lnext, luntil};
ghost use Rattle.logic.specs.LtlMeaning.{LtlHoldsOn};
ghost use Rattle.trace.specs.declared.TraceView.{TraceView};
ghost use Rattle.ltl.specs.declared.kind.Kind.TheVariants.{Var};
ghost use Rattle.ltl.specs.Kind.{number};
ghost use Rattle.rows.specs.Inner.Rows.{FitsRow, TellsOn, SignalIn, SignalsIn, Swept, TellsNode};

use logic::{Letter, SIGNALS};
use ltl::Kind;
use trace::{MOST_LETTERS, TraceView};

// The last letter of both lists has the lowest bit, the one before it the next, and so on; bits past the first letter may hold anything. So what
// follows a moment is one bit lower, and nothing has to be masked out. A shift is taken modulo the word's length, so that no caller has to
// show that a trace has room; what a row tells is said of those that have.
pub type Row = u64;

// Yes at every moment.
pub const ALWAYS: Row = u64::MAX;

// Signal k at the letters of a list, put after a row of what comes before them.
fn signal_after(before: Row, s: &[Letter], k: u16) -> Row
    requires { k < signals }
    ensures { (t : List ℕ) → SignalIn t k before → SignalIn (t ++ s.now) k result }
{
    s.iter().fold(before, |w, letter| (w << 1) | Row::from((letter >> k) & 1))
}

// The row of signal k. Not inlined: inside the loop over a table's nodes it took registers from that loop, which took a tenth longer on large tables.
#[inline(never)]
fn signal_row(trace: TraceView<'_>, k: u16) -> Row
    requires { k < signals }
    ensures { SignalIn (trace.entry.lead.now ++ trace.entry.cycle.now) k result }
{
    signal_after(signal_after(0, trace.lead, k), trace.cycle, k)
}

// A row for each signal.
const ROWS: usize = SIGNALS as usize;

// The rows of a trace's signals. Each is made when it is first asked for.
#[derive(Drop)]
pub struct SignalRows<'a> {
    pub trace: TraceView<'a>,
    rows: [Option<Row>; ROWS],
    ghost told: { SignalsIn (trace.lead.now ++ trace.cycle.now) rows },
}

impl<'a> SignalRows<'a> {
    // No row is there yet.
    pub fn new(trace: TraceView<'a>) -> SignalRows<'a>
        ensures { result.trace ≡ trace.entry }
    {
        SignalRows {
            trace,
            rows: [None; ROWS],
        }
    }

    // The row of signal k, modulo the number of signals.
    pub fn row(&mut self, k: u16) -> Row
        ensures same_trace { self.new.trace ≡ self.old.trace }
        ensures kept { self.new.rows ≡ set self.old.rows (k % signals) (Some result) }
        ensures tells { k < signals → TellsOn self.old.trace result (lvar k) }
    {
        let s = k % SIGNALS;
        let at = usize::from(s);
        match self.rows[at] {
            Some(row) => row,
            None => {
                let row = signal_row(self.trace, s);
                self.rows[at] = Some(row);
                row
            }
        }
    }
}

// What accept row a and reject row r make of row b: a or (b and not r).
pub fn gate(a: Row, b: Row, r: Row) -> Row
    ensures { (t : TraceView) (x y z : Ltl) → TellsOn t a x → TellsOn t b y → TellsOn t r z → TellsOn t result (lor x (land y (lnot z))) }
{
    a | (b & !r)
}

// The row of next, on every trace with a loop of that length (a premise of three promises, of pairs of traces, for which no type would be plainer): each bit from the one below it, and on a loop the lowest from the loop's first letter.
pub fn next_row(a: Row, trace: TraceView<'_>) -> Row
    ensures { (t : TraceView) (x : Ltl) → length t.cycle.now ≡ length trace.entry.cycle.now → TellsOn t a x → TellsOn t result (lnext x) }
{
    match trace.cycle.len().checked_sub(1) {
        None => a << 1,
        Some(start) => (a << 1) | ((a >> (start % MOST_LETTERS)) & 1),
    }
}

// The until step: until over all bits from the lowest up, where carry stands below it. It is the carry of a sum: adding f | g and g, one leaves a bit
// where g is set, or where f is and one comes in. Where f alone is set the sum's bit is the opposite of what came in.
fn sweep(f: Row, g: Row, carry: Row) -> Row
    ensures { Swept f g (bit carry 0) result }
{
    let sum = (f | g).wrapping_add(g).wrapping_add(carry & 1);
    g | (f & !sum)
}

// The row of until, on every trace with a loop of that length: from no, and on a loop again from what that says of the loop's start.
pub fn until_row(f: Row, g: Row, trace: TraceView<'_>) -> Row
    ensures { (t : TraceView) (x y : Ltl) → length t.cycle.now ≡ length trace.entry.cycle.now → TellsOn t f x → TellsOn t g y → TellsOn t result (luntil x y) }
{
    let once = sweep(f, g, 0);
    match trace.cycle.len().checked_sub(1) {
        None => once,
        Some(start) => sweep(f, g, once >> (start % MOST_LETTERS)),
    }
}

// The row of an LTL node of a kind that is not a signal's, by its operands' rows a and b. Of a signal's kind nothing is promised: an enum without it would be a second list of kinds.
pub fn node_row(kind: Kind, a: Row, b: Row, trace: TraceView<'_>) -> Row
    ensures { (t : TraceView) (l : ℕ) → length t.cycle.now ≡ length trace.entry.cycle.now → FitsRow t.lead.now t.cycle.now → (kind ≢ Var)
        → TellsNode t.lead.now t.cycle.now (number kind) l a b result }
{
    match kind {
        Kind::True | Kind::Var => ALWAYS,
        Kind::Not => !a,
        Kind::And => a & b,
        Kind::Or => a | b,
        Kind::Next => next_row(a, trace),
        Kind::Until => until_row(a, b, trace),
    }
}

// Whether a tree holds on a trace, by its row: its truth at moment 0.
pub fn holds_first(w: Row, trace: TraceView<'_>) -> bool
    ensures { (t : TraceView) (x : Ltl) → size t.lead.now t.cycle.now ≡ size trace.entry.lead.now trace.entry.cycle.now → FitsRow t.lead.now t.cycle.now → TellsOn t w x
        → LtlHoldsOn x t.lead.now t.cycle.now ↔ T result }
{
    (w >> (trace.size().wrapping_sub(1) % MOST_LETTERS)) & 1 == 1
}
