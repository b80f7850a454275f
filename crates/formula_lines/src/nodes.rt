// Nodes written behind those that are there, and what each keyword has besides its operands.
ghost use Rattle.std.specs.Prelude.{◌≡◌, ◌+◌, ◌-◌, ◌*◌, ◌≤◌, false, min, [], ◌∷◌};
ghost use Rattle.std.proofs.lemmas.List.Edits.{sets};
ghost use Rattle.psl.specs.Kind.{number as kind_number};
ghost use Rattle.table.specs.Node.{node};
ghost use Rattle.formula_lines.specs.Inner.Kinds.{short_number, number};
ghost use Rattle.formula_lines.specs.Inner.Writes.{full, Writes, leaf, strong_true, opens, negations, ahead};
ghost use Rattle.formula_lines.specs.Inner.Reader.{PutBetween, ClosesOne, PutNotWithout, PutForever};

use crate::keywords::{Keyword, Short};
use psl::{Kind, MOST_NODES};
use table::{Node, NodeNo};
use text::put::put;

// Nodes are counted up to this number, one more than a table may have.
pub(crate) const FULL: usize = MOST_NODES + 1;

// A node behind those that are there, and how many there are then: three numbers, as C lends and takes a table. Above what a table may have the count stands still, since a short form may
// stand for more nodes than a number can count. The list and the count of its nodes stay two parameters: as a struct of both they would come with a clause in each contract, as in `Walks`
// of the translator, that the struct still holds the same list.
fn put_node(out: &mut [u16], n: usize, node: Node<Kind>) -> usize
    requires { n ≤ full }
    ensures count { result ≡ min full (n + 1) }
    ensures list { out.new ≡ sets out.old (3 * n) (kind_number node.kind ∷ node.left ∷ node.right ∷ []) }
{
    put(out, 3 * n, node.kind.into());
    put(out, 3 * n + 1, node.left);
    put(out, 3 * n + 2, node.right);
    (n + 1).min(FULL)
}

// The number of the last of n nodes.
fn last(n: usize) -> u16
    requires { n ≤ full }
    ensures { result ≡ n - 1 }
{
    NodeNo::from_index(n.saturating_sub(1)).0
}

// A node without an operand.
pub(crate) fn put_leaf(out: &mut [u16], n: usize, kind: Kind, value: u16) -> usize
    requires { n ≤ full }
    ensures { Writes false (leaf (kind_number kind) value n) n out.old result out.new }
{
    let node = Node {
        kind,
        left: value,
        right: 0,
    };
    put_node(out, n, node)
}

// A node over the last one.
pub(crate) fn put_over(out: &mut [u16], n: usize, kind: Kind) -> usize
    requires { n ≤ full }
    ensures { Writes false (node (kind_number kind) (n - 1) 0 ∷ []) n out.old result out.new }
{
    let node = Node {
        kind,
        left: last(n),
        right: 0,
    };
    put_node(out, n, node)
}

// A node over the last of the first `start` nodes and the last of all.
pub(crate) fn put_both(out: &mut [u16], n: usize, kind: Kind, start: usize) -> usize
    requires { (n ≤ full) × (start ≤ full) }
    ensures { Writes false (node (kind_number kind) (start - 1) (n - 1) ∷ []) n out.old result out.new }
{
    let node = Node {
        kind,
        left: last(start),
        right: last(n),
    };
    put_node(out, n, node)
}

// `strong true`, which holds at each moment inside.
pub(crate) fn put_strong_true(out: &mut [u16], n: usize) -> usize
    requires { n ≤ full }
    ensures { Writes false (strong_true n) n out.old result out.new }
{
    let n = put_leaf(out, n, Kind::True, 0);
    put_over(out, n, Kind::Strong)
}

// Not the one without the other: the first ends before `start`.
pub(crate) fn put_not_without(out: &mut [u16], start: usize, n: usize) -> usize
    requires { (n ≤ full) × (start ≤ full) }
    ensures few { result ≤ full }
    ensures nodes { PutNotWithout start n out.old result out.new }
{
    let n = put_over(out, n, Kind::Not);
    let n = put_both(out, n, Kind::And, start);
    put_over(out, n, Kind::Not)
}

// At no moment not: `strong true` ends before `start`, and the operand at the end.
pub(crate) fn put_forever(out: &mut [u16], start: usize, n: usize) -> usize
    requires { (n ≤ full) × (start ≤ full) }
    ensures few { result ≤ full }
    ensures nodes { PutForever start n out.old result out.new }
{
    let n = put_over(out, n, Kind::Not);
    let n = put_both(out, n, Kind::Until, start);
    put_over(out, n, Kind::Not)
}

// Whether `strong true` stands before the operand.
#[tactic(auto, unfolding(crate::specs::Inner::Writes::opens))]
fn opens(keyword: Keyword) -> bool
    ensures { result ≡ opens (number keyword) }
{
    match keyword {
        Keyword::Short(Short::Eventually | Short::Always) => true,
        _ => false,
    }
}

// How often `not` stands between the operands.
#[tactic(auto, unfolding(crate::specs::Inner::Writes::negations))]
fn negations(keyword: Keyword) -> usize
    ensures { result ≡ negations (number keyword) }
{
    match keyword {
        Keyword::Short(Short::Or | Short::Before) => 1,
        Keyword::Short(Short::Implies | Short::Iff) => 2,
        _ => 0,
    }
}

// What a kind has before its operand.
pub(crate) fn put_ahead(out: &mut [u16], n: usize, keyword: Keyword) -> usize
    requires { n ≤ full }
    ensures { Writes false (ahead (number keyword) n) n out.old result out.new }
{
    if opens(keyword) {
        return put_strong_true(out, n);
    }
    n
}

// What a kind has between its operands.
pub(crate) fn put_between(out: &mut [u16], n: usize, keyword: Keyword) -> usize
    requires { n ≤ full }
    ensures few { result ≤ full }
    ensures nodes { PutBetween (number keyword) n out.old result out.new }
{
    let mut nodes = n;
    for _ in 0..negations(keyword) {
        nodes = put_over(out, nodes, Kind::Not);
    }
    nodes
}

// What a short form has behind its one operand, which begins at `start`.
fn close_short_one(out: &mut [u16], start: usize, n: usize, short: Short) -> usize
    requires { (n ≤ full) × (start ≤ full) }
    ensures few { result ≤ full }
    ensures nodes { ClosesOne (short_number short) start n out.old result out.new }
{
    match short {
        Short::Eventually => put_both(out, n, Kind::Until, start),
        Short::Always => put_forever(out, start, n),
        _ => {
            // wnext
            let n = put_over(out, n, Kind::Not);
            let n = put_over(out, n, Kind::Next);
            put_over(out, n, Kind::Not)
        }
    }
}

// What a kind has behind its one operand.
pub(crate) fn close_one(out: &mut [u16], start: usize, n: usize, keyword: Keyword) -> usize
    requires { (n ≤ full) × (start ≤ full) }
    ensures few { result ≤ full }
    ensures nodes { ClosesOne (number keyword) start n out.old result out.new }
{
    match keyword {
        Keyword::Node(kind) => put_over(out, n, kind),
        Keyword::Short(short) => close_short_one(out, start, n, short),
    }
}
