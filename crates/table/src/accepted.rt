// A table that passed its check.
ghost use Rattle.std.specs.Prelude.{◌≡◌};
ghost use Rattle.std.proofs.Math.Option.{none};

use crate::kind::Checked;
use crate::{Node, NodeNo, nodes_of};
use std::alloc::AllocError;
use std::marker::PhantomData;
use trace::Refusal;

// Its numbers, three a node, are those of an accepted table: so each function that takes one can rely on all that the check tests.
pub struct Table<'a, K: Checked> {
    pub numbers: &'a [u16],
    pub of: PhantomData<K>,
    pub ghost accepted: { K.refusal numbers.now ≡ none },
}

// By hand: a derive over a ghost field that speaks of the parameter is refused.
impl<'a, K: Checked> Clone for Table<'a, K> {
    fn clone(&self) -> Result<Table<'a, K>, AllocError> {
        Ok(*self)
    }
}

impl<'a, K: Checked> Copy for Table<'a, K> {}

impl<'a, K: Checked> Table<'a, K> {
    ghost use Rattle.std.specs.Prelude.{◌-◌};
    ghost use Rattle.table.specs.Node.{count};
    ghost use Rattle.table.specs.Takes.{Takes, NodeIs};

    pub fn new(t: &'a [u16]) -> Result<Table<'a, K>, Refusal>
        ensures { Takes K.refusal t.entry result }
    {
        K::check(t)?;
        Ok(Table {
            numbers: t,
            of: PhantomData,
        })
    }

    // How many nodes it has.
    pub fn nodes(self) -> usize
        ensures { result ≡ count self.entry.numbers.now }
    {
        self.numbers.len() / 3
    }

    // Its last node.
    pub fn root(self) -> NodeNo
        ensures { result.0 ≡ count self.entry.numbers.now - 1 }
    {
        NodeNo::from_index(self.nodes() - 1)
    }

    // Node i; none past the end.
    pub fn node(self, i: NodeNo) -> Option<Node<K>>
        ensures { NodeIs K.number self.entry.numbers.now i.0 result }
    {
        let n = Node::from(*nodes_of(self.numbers).get(i.index())?);
        Some(Node {
            kind: K::from_number(n.kind).unwrap(),
            left: n.left,
            right: n.right,
        })
    }
}
