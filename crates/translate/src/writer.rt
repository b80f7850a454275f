// The LTL table as it is written.
ghost use Rattle.std.specs.Prelude.{◌≡◌, ◌+◌, ◌*◌, ◌<◌, length, set};
ghost use Rattle.table.specs.Node.{node, ◌▸◌};
ghost use Rattle.ltl.specs.Kind.{number};
ghost use Rattle.translate.specs.Emitted.{gated};
ghost use Rattle.translate.specs.Inner.Stored.{Room, Walks};

use crate::Marks;
use ltl::Kind;
use table::{Node, NodeNo};

// Node n, as the three numbers that C takes. There is room for it, which the reader of formula lines, whose `put_node` is like this, does not know.
fn store(out: &mut [u16], n: NodeNo, node: Node<Kind>)
    requires { 3 * n.0 + 2 < length out.old }
    ensures { out.new ≡ set (set (set out.old (3 * n.0) (number node.kind)) (3 * n.0 + 1) node.left) (3 * n.0 + 2) node.right }
{
    let at = n.start();
    out[at] = u16::from(node.kind);
    out[at + 1] = node.left;
    out[at + 2] = node.right;
}

// The lent list, which C lends, and how many nodes stand in it, from its start.
#[derive(Drop)]
pub(crate) struct Writer<'a> {
    out: &'a mut [u16],
    nodes: usize,
}

impl<'a> Writer<'a> {
    pub(crate) fn new(out: &'a mut [u16]) -> Writer<'a>
        ensures same_list { result.out.ghost_name ≡ out.entry.ghost_name }
        ensures whole { result.out.now ≡ out.old }
        ensures none { result.nodes ≡ 0 }
    {
        Writer { out, nodes: 0 }
    }

    // A node behind those that are there; its number comes back.
    fn append(&mut self, added: Node<Kind>) -> NodeNo
        requires { Room 1 self.old }
        ensures { Walks 1 (λ ns. ns ▸ node (number added.kind) added.left added.right) self.old self.new result.0 }
    {
        let n = NodeNo::from_index(self.nodes);
        store(self.out, n, added);
        self.nodes += 1;
        n
    }

    // A node without operands.
    pub(crate) fn leaf(&mut self, kind: Kind, left: u16) -> NodeNo
        requires { Room 1 self.old }
        ensures { Walks 1 (λ ns. ns ▸ node (number kind) left 0) self.old self.new result.0 }
    {
        self.append(Node {
            kind,
            left,
            right: 0, // unused
        })
    }

    // A node with one operand.
    pub(crate) fn unary(&mut self, kind: Kind, x: NodeNo) -> NodeNo
        requires { Room 1 self.old }
        ensures { Walks 1 (λ ns. ns ▸ node (number kind) x.0 0) self.old self.new result.0 }
    {
        self.append(Node {
            kind,
            left: x.0,
            right: 0,
        })
    }

    // A node with two operands.
    pub(crate) fn binary(&mut self, kind: Kind, x: NodeNo, y: NodeNo) -> NodeNo
        requires { Room 1 self.old }
        ensures { Walks 1 (λ ns. ns ▸ node (number kind) x.0 y.0) self.old self.new result.0 }
    {
        self.append(Node {
            kind,
            left: x.0,
            right: y.0,
        })
    }

    // Not reject; and (the last node x, that); or (accept, that). In a writer of its own, whose count stays in a register.
    pub(crate) fn gate(&mut self, x: NodeNo, marks: Marks) -> NodeNo
        requires { (x.0 + 1 ≡ self.old.nodes) × Room 3 self.old }
        ensures { Walks 3 (gated marks.accept.0 marks.reject.0) self.old self.new result.0 }
    {
        let mut w = Writer {
            out: &mut *self.out,
            nodes: self.nodes,
        };
        let p = w.unary(Kind::Not, marks.reject);
        let q = w.binary(Kind::And, x, p);
        let m = w.binary(Kind::Or, marks.accept, q);
        self.nodes = w.nodes;
        m
    }
}
