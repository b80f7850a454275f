// The nodes of an accepted table, with their sorts: what walks over one take and match on.
ghost use Rattle.std.specs.Prelude.{◌≡◌, ◌+◌, ◌-◌, ◌*◌, take};
ghost use Rattle.std.proofs.Math.Option.{none};
ghost use Rattle.table.specs.Node.{count, kind_at, left_at, right_at};
ghost use Rattle.table.specs.Check.{table_refusal};
ghost use Rattle.psl.specs.Kind.{number};
ghost use Rattle.psl.specs.Check.{psl_rules};
ghost use Rattle.psl.specs.Inner.Parts.{boolean_at, formula_at};
ghost use Rattle.psl.specs.Inner.Sort.{IsBooleanAt, IsFormulaAt};

use crate::{Kind, PslTable};
use table::{Node, NodeNo};

// A node that is a Boolean. It is the front of its table that ends with it: a list alone goes in registers. With the table and a number instead, typical
// verdicts and translations took 17 and 19% longer.
#[derive(Clone, Copy)]
pub struct BooleanNode<'a> {
    pub front: &'a [u16],
    pub ghost passes: { table_refusal psl_rules front.now ≡ none },
    pub ghost sort: { IsBooleanAt front.now (count front.now - 1) },
}

// A node that is a formula, in the same form.
#[derive(Clone, Copy)]
pub struct FormulaNode<'a> {
    pub front: &'a [u16],
    pub ghost passes: { table_refusal psl_rules front.now ≡ none },
    pub ghost sort: { IsFormulaAt front.now (count front.now - 1) },
}

// What a Boolean is made of.
#[derive(Clone, Copy)]
pub enum BooleanParts<'a> {
    True,
    Var(u16),
    Bnot(BooleanNode<'a>),
    Band(BooleanNode<'a>, BooleanNode<'a>),
}

// What a formula is made of.
#[derive(Clone, Copy)]
pub enum FormulaParts<'a> {
    Weak(BooleanNode<'a>),
    Strong(BooleanNode<'a>),
    Not(FormulaNode<'a>),
    And(FormulaNode<'a>, FormulaNode<'a>),
    Next(FormulaNode<'a>),
    Until(FormulaNode<'a>, FormulaNode<'a>),
    Abort(FormulaNode<'a>, BooleanNode<'a>),
}

// The last node of a list that passed the tests of nodes. This and the two `new` ask for what is a ghost field of the nodes, since these are made of such lists.
fn last_node(t: &[u16]) -> Node<Kind>
    requires { table_refusal psl_rules t.now ≡ none }
    ensures { (number result.kind ≡ kind_at t.now (count t.now - 1)) × (result.left ≡ left_at t.now (count t.now - 1)) × (result.right ≡ right_at t.now (count t.now - 1)) }
{
    let &[.., kind, left, right] = t else {
        unreachable!()
    };
    Node {
        kind: Kind::try_from(kind).unwrap(),
        left,
        right,
    }
}

impl<'a> BooleanNode<'a> {
    ghost use Rattle.psl.specs.Nodes.{boolean, BooleanOf};

    // Node i of a list that passed the tests of nodes.
    fn new(t: &'a [u16], i: NodeNo) -> BooleanNode<'a>
        requires passes { table_refusal psl_rules t.now ≡ none }
        requires sort { IsBooleanAt t.now i.0 }
        ensures { (result.front.now ≡ take (3 * i.0 + 3) t.now) × (boolean result ≡ boolean_at t.now i.0) }
    {
        BooleanNode {
            front: &t[..i.start() + 3],
        }
    }

    pub fn parts(self) -> BooleanParts<'a>
        ensures { BooleanOf self.entry result }
    {
        let t = self.front;
        let node = last_node(t);
        let (l, r) = (NodeNo(node.left), NodeNo(node.right));
        match node.kind {
            Kind::True => BooleanParts::True,
            Kind::Var => BooleanParts::Var(node.left),
            Kind::Bnot => BooleanParts::Bnot(BooleanNode::new(t, l)),
            Kind::Band => BooleanParts::Band(BooleanNode::new(t, l), BooleanNode::new(t, r)),
            // A formula's kinds.
            _ => unreachable!(),
        }
    }
}

impl<'a> FormulaNode<'a> {
    ghost use Rattle.psl.specs.Table.{formula_of};
    ghost use Rattle.psl.specs.Nodes.{formula, FormulaOf};

    // The same of a formula, of which another ghost field tells the sort.
    fn new(t: &'a [u16], i: NodeNo) -> FormulaNode<'a>
        requires passes { table_refusal psl_rules t.now ≡ none }
        requires sort { IsFormulaAt t.now i.0 }
        ensures { (result.front.now ≡ take (3 * i.0 + 3) t.now) × (formula result ≡ formula_at t.now i.0) }
    {
        FormulaNode {
            front: &t[..i.start() + 3],
        }
    }

    // The root of an accepted table is a formula.
    pub fn root(table: PslTable<'a>) -> FormulaNode<'a>
        ensures { result.front ≡ table.entry.numbers }
    {
        FormulaNode {
            front: table.numbers,
        }
    }

    pub fn parts(self) -> FormulaParts<'a>
        ensures { FormulaOf self.entry result }
    {
        let t = self.front;
        let node = last_node(t);
        let (l, r) = (NodeNo(node.left), NodeNo(node.right));
        match node.kind {
            Kind::Weak => FormulaParts::Weak(BooleanNode::new(t, l)),
            Kind::Strong => FormulaParts::Strong(BooleanNode::new(t, l)),
            Kind::Not => FormulaParts::Not(FormulaNode::new(t, l)),
            Kind::And => FormulaParts::And(FormulaNode::new(t, l), FormulaNode::new(t, r)),
            Kind::Next => FormulaParts::Next(FormulaNode::new(t, l)),
            Kind::Until => FormulaParts::Until(FormulaNode::new(t, l), FormulaNode::new(t, r)),
            Kind::Abort => FormulaParts::Abort(FormulaNode::new(t, l), BooleanNode::new(t, r)),
            // A Boolean's kinds.
            _ => unreachable!(),
        }
    }
}
