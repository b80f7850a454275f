// Tables of triples: what PSL and LTL tables share. A table is a list of numbers, three a node, and an operand is its node's number, since C lends and takes them so.
#![tactic(auto)]

mod accepted;
mod kind;
mod place;

ghost use Rattle.std.specs.Prelude.{◌≡◌, ◌*◌, ◌%◌, List, [], ◌∷◌, get_or};
ghost use Rattle.std.proofs.Math.Option.{none};
ghost use Rattle.table.specs.Node.{node, kind_at, left_at, right_at, NodesOf};
ghost use Rattle.trace.specs.Refusal.{unless};
ghost use Rattle.table.specs.Answer.{checked};
ghost use Rattle.table.specs.Check.{length_fits, sort_refusal, places_refusal, node_refusal, refusal_at};
ghost use Rattle.table.specs.Inner.Place.{uses_of, node_low};

pub use accepted::Table;
pub use kind::{Checked, Kind, NoKind, Refusals};
pub use place::{Place, places_low};
use trace::Refusal;

// The number of a node, counted from 0 along a table: never a point of time.
#[derive(Clone, Copy, Debug, PartialEq, Eq, PartialOrd, Ord)]
pub struct NodeNo(pub u16);

impl NodeNo {
    // The node that stands at place i. There are no more than 65,536 numbers of nodes.
    pub fn from_index(i: usize) -> NodeNo
        ensures { result.0 ≡ i % 65536 }
    {
        NodeNo((i % 65536) as u16)
    }

    // Its place along the table.
    pub fn index(self) -> usize
        ensures { result ≡ self.0 }
    {
        usize::from(self.0)
    }

    // Where its three numbers begin.
    pub fn start(self) -> usize
        ensures { result ≡ 3 * self.0 }
    {
        3 * self.index()
    }
}

// A node: its kind, and what its two places hold. The kind is a number as it stands in a list, or what that stands for. Its number is no part of it, since it stands in no list: functions take both.
#[derive(Clone, Copy, Debug, PartialEq, Eq)]
pub struct Node<K> {
    pub kind: K,
    pub left: u16,
    pub right: u16,
}

impl From<[u16; 3]> for Node<u16> {
    ghost from_gives = { λ x n. x ≡ n.kind ∷ n.left ∷ n.right ∷ [] };

    fn from([kind, left, right]: [u16; 3]) -> Node<u16> {
        Node { kind, left, right }
    }
}

// The most nodes of a small table, for which a check or a verdict clears less memory than for the largest.
pub const FEW_NODES: usize = 128;

// A table of n numbers has as many nodes as are allowed.
pub fn length_fits(most: usize, n: usize) -> bool
    ensures { result ≡ length_fits most n }
{
    (n % 3 == 0) & (0 < n / 3) & (n / 3 <= most)
}

// The nodes of a list, three numbers each. One or two numbers left over are of none.
pub fn nodes_of(t: &[u16]) -> &[[u16; 3]]
    ensures { NodesOf t.now result.now }
{
    t.as_chunks::<3>().0
}

// A number of a list, 0 past its end.
fn number_at(t: &[u16], at: usize) -> u16
    ensures { result ≡ get_or t.now at 0 }
{
    t.get(at).copied().unwrap_or(0)
}

// Node i of a list, 0 past its end: it is asked of any list, which `nodes_of` gives no place for.
fn node_in(t: &[u16], i: NodeNo) -> Node<u16>
    ensures { (result.kind ≡ kind_at t.now i.0) × (result.left ≡ left_at t.now i.0) × (result.right ≡ right_at t.now i.0) }
{
    let at = i.start();
    Node {
        kind: number_at(t, at),
        left: number_at(t, at + 1),
        right: number_at(t, at + 2),
    }
}

// That refusal unless a test was passed.
fn passed(test: bool, x: Refusal) -> Result<(), Refusal>
    ensures { result ≡ checked (unless test x none) }
{
    if test { Ok(()) } else { Err(x) }
}

// The sorts of the operands of node i, if there are two.
fn check_sorts<K: Kind>(
    places: (Place, Place),
    i: NodeNo,
    booleans: (bool, bool),
) -> Result<(), Refusal>
    ensures { result ≡ checked (sort_refusal K.rules.sorts (uses_of places) i.0 booleans.0 booleans.1) }
{
    match K::refusals(i).sort {
        None => Ok(()),
        Some(e) => passed(
            places.0.sort_fits(booleans.0) & places.1.sort_fits(booleans.1),
            e,
        ),
    }
}

// The places of node i. `booleans` tells which of its operands are Booleans.
fn check_places<K: Kind>(
    places: (Place, Place),
    i: NodeNo,
    n: Node<u16>,
    booleans: (bool, bool),
) -> Result<(), Refusal>
    ensures { result ≡ checked (places_refusal K.rules (uses_of places) i.0 n.left n.right booleans.0 booleans.1) }
{
    let (p, q) = places;
    let x = K::refusals(i);
    passed(p.unused_fits(n.left) & q.unused_fits(n.right), x.unused)?;
    passed(p.signal_fits(n.left) & q.signal_fits(n.right), x.signal)?;
    passed(
        p.operand_fits(n.left, i) & q.operand_fits(n.right, i),
        x.operand,
    )?;
    check_sorts::<K>(places, i, booleans)
}

// Node i. `booleans` tells which of its operands are Booleans.
pub fn check_node<K: Kind>(i: NodeNo, n: Node<u16>, booleans: (bool, bool)) -> Result<(), Refusal>
    ensures { result ≡ checked (node_refusal K.rules i.0 (node n.kind n.left n.right) booleans.0 booleans.1) }
{
    match K::from_number(n.kind) {
        Ok(kind) => check_places::<K>(kind.places(), i, n, booleans),
        Err(_) => Err(K::refusals(i).kind),
    }
}

// All tests of node i but those of sorts, in one.
pub fn low_node<K: Kind>(i: NodeNo, n: Node<u16>) -> bool
    ensures { result ≡ node_low K.rules i.0 (node n.kind n.left n.right) }
{
    K::from_number(n.kind).is_ok_and(|kind| places_low(kind.places(), i, n))
}

// The answer for node i of a table, whatever the table is.
pub fn refused_at<K: Kind>(t: &[u16], i: NodeNo) -> Result<(), Refusal>
    ensures { result ≡ checked (refusal_at K.rules t.now i.0) }
{
    let n = node_in(t, i);
    let left = K::is_boolean(node_in(t, NodeNo(n.left)).kind);
    let right = K::is_boolean(node_in(t, NodeNo(n.right)).kind);
    check_node::<K>(i, n, (left, right))
}
