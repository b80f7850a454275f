// The translation from PSL tables to LTL tables.
#![tactic(auto)]

mod writer;

ghost use Rattle.std.specs.Prelude.{◌≡◌, ◌++◌, ◌+◌, ◌*◌, ◌≤◌, length, drop};
ghost use Rattle.psl.specs.Size.{weigh_b, weigh};
ghost use Rattle.psl.specs.Table.{formula_of};
ghost use Rattle.psl.specs.Nodes.{boolean, formula};
ghost use Rattle.translate.specs.Emitted.{added_by, emitted, emitted_size, gated, walked_b, walked};
ghost use Rattle.translate.specs.Inner.Stored.{Room, Walks};
ghost use Rattle.translate.specs.Answer.{Delivers};

use ltl::Kind;
use psl::{BooleanNode, BooleanParts, FormulaNode, FormulaParts, Kind as PslKind, PslTable};
use table::{Node, NodeNo};
use trace::Refusal;
use writer::Writer;

// The numbers of the nodes for accept and reject.
#[derive(Clone, Copy)]
struct Marks {
    accept: NodeNo,
    reject: NodeNo,
}

impl Marks {
    fn exchanged(self) -> Marks
        ensures { (result.accept ≡ self.reject) × (result.reject ≡ self.accept) }
    {
        Marks {
            accept: self.reject,
            reject: self.accept,
        }
    }
}

// A Boolean: its operands, then one node. These recursions stand beside those of the PSL verdict: their values are nodes and not rows or truths, and one fold with a
// closure for each kind is no plainer. `Room` and `Walks` stand in several contracts, as amounts and walks differ from call to call: no ghost field could say them.
fn walk_boolean(n: BooleanNode<'_>, w: &mut Writer<'_>) -> NodeNo
    requires { Room (weigh_b added_by (boolean n)) w.old }
    ensures { Walks (weigh_b added_by (boolean n.entry)) (walked_b (boolean n.entry)) w.old w.new result.0 }
{
    match n.parts() {
        BooleanParts::True => w.leaf(Kind::True, 0),
        BooleanParts::Var(k) => w.leaf(Kind::Var, k),
        BooleanParts::Bnot(b) => {
            let x = walk_boolean(b, w);
            w.unary(Kind::Not, x)
        }
        BooleanParts::Band(b, c) => {
            let x = walk_boolean(b, w);
            let y = walk_boolean(c, w);
            w.binary(Kind::And, x, y)
        }
    }
}

// A Boolean under its gate: weak, strong, and an abort's condition.
fn literal(n: BooleanNode<'_>, marks: Marks, w: &mut Writer<'_>) -> NodeNo
    requires { Room (weigh_b added_by (boolean n) + 3) w.old }
    ensures { Walks (weigh_b added_by (boolean n.entry) + 3)
        (λ ns. gated marks.accept.0 marks.reject.0 (walked_b (boolean n.entry) ns)) w.old w.new result.0 }
{
    let x = walk_boolean(n, w);
    w.gate(x, marks)
}

// A formula, with the numbers of accept and reject.
fn walk(n: FormulaNode<'_>, marks: Marks, w: &mut Writer<'_>) -> NodeNo
    requires { Room (weigh added_by (formula n)) w.old }
    ensures { Walks (weigh added_by (formula n.entry))
        (walked (formula n.entry) marks.accept.0 marks.reject.0) w.old w.new result.0 }
{
    match n.parts() {
        // Two arms: what both together bind has no name of the source in a proof.
        FormulaParts::Weak(b) => literal(b, marks, w),
        FormulaParts::Strong(b) => literal(b, marks, w),
        FormulaParts::Not(f) => {
            let x = walk(f, marks.exchanged(), w);
            w.unary(Kind::Not, x)
        }
        FormulaParts::And(f, g) => {
            let x = walk(f, marks, w);
            let y = walk(g, marks, w);
            w.binary(Kind::And, x, y)
        }
        FormulaParts::Next(f) => {
            let x = walk(f, marks, w);
            let y = w.unary(Kind::Next, x);
            w.gate(y, marks)
        }
        FormulaParts::Until(f, g) => {
            let x = walk(f, marks, w);
            let y = walk(g, marks, w);
            w.binary(Kind::Until, x, y)
        }
        FormulaParts::Abort(f, b) => {
            let x = literal(b, marks, w);
            walk(f, Marks { accept: x, ..marks }, w)
        }
    }
}

// How many nodes a PSL node adds to the emitted table, by the number of its kind: as a function of a kind, the sum's closure would have a case of its own for a number that is none, which no
// accepted table has, and its proof no bound on the number.
#[tactic(auto, unfolding(crate::specs::Emitted::added_by))]
fn adds(kind: u16) -> usize
    ensures { (result ≡ added_by kind) × (result ≤ 4) }
{
    match PslKind::try_from(kind) {
        Ok(PslKind::Weak | PslKind::Strong | PslKind::Abort) => 3,
        Ok(PslKind::Next) => 4,
        _ => 1,
    }
}

// The size S, summed over the table's nodes.
fn emitted_size(t: PslTable<'_>) -> usize
    ensures { result ≡ emitted_size (formula_of t.entry.numbers.now) }
{
    let added: usize = table::nodes_of(t.numbers)
        .iter()
        .map(|x| adds(Node::from(*x).kind))
        .sum();
    2 + added
}

// The emitted table, into a list with room for it.
fn emit(t: PslTable<'_>, out: &mut [u16])
    requires { 3 * emitted_size (formula_of t.numbers.now) ≤ length out.old }
    ensures { out.new ≡ emitted (formula_of t.entry.numbers.now) ++ drop (length (emitted (formula_of t.entry.numbers.now))) out.old }
{
    let mut w = Writer::new(out);
    let zero = w.leaf(Kind::True, 0);
    let one = w.unary(Kind::Not, zero);
    let marks = Marks {
        accept: one,
        reject: one,
    };
    walk(FormulaNode::root(t), marks, &mut w);
}

// The LTL table of a PSL table. Refusals 1 to 8, then 10.
pub fn translate(t: &[u16], out: &mut [u16]) -> Result<usize, Refusal>
    ensures { Delivers t.now out.old result out.new }
{
    let table = PslTable::new(t)?;
    let s = emitted_size(table);
    if out.len() < 3 * s {
        return Err(Refusal::TableRoom);
    }
    emit(table, out);
    Ok(s)
}
