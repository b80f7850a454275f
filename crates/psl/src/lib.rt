// PSL tables and their check.
#![tactic(auto)]

mod kind;
mod node;

ghost use Rattle.std.specs.Prelude.{◌≡◌, ◌&&◌, ◌<◌, ◌≤◌, IfOk};
ghost use Rattle.trace.specs.Refusal.{lowest};
ghost use Rattle.table.specs.Answer.{checked};
ghost use Rattle.table.specs.Node.{count};
ghost use Rattle.table.specs.Check.{sort_fits, is_boolean, refusal_at};
ghost use Rattle.table.specs.Inner.Place.{use_of, operand_or, all_fit};
ghost use Rattle.psl.specs.Check.{psl_rules, tree_refusal, psl_refusal};
ghost use Rattle.psl.specs.Inner.Counts.{Counted, CountRoom, Tallied, RoomForNodes};
ghost use Rattle.psl.specs.Answer.{PslChecks};

pub use kind::Kind;
pub use node::{BooleanNode, BooleanParts, FormulaNode, FormulaParts};
use table::{Checked, FEW_NODES, Node, NodeNo, Place, Table};
use trace::Refusal;

// How many of the kinds, the first, are Booleans. By numbers and no match on kinds: the check asks it of lists that nothing has passed, whose numbers
// need be no kinds, and in its loop it is a comparison without a branch.
const BOOLEANS: u16 = 4;

// The most nodes of a table.
pub const MOST_NODES: usize = 1024;

// An accepted PSL table.
pub type PslTable<'a> = Table<'a, Kind>;

// What place p names is of its sort. Where it has no operand, the kind of any node will do.
fn named_fits(p: Place, n: u16, t: &[u16]) -> bool
    requires { operand_or (use_of p) n 0 < count t.now }
    ensures { result ≡ sort_fits (use_of p) (is_boolean psl_rules t.now n) }
{
    let m = NodeNo(p.operand(n));
    p.sort_fits(t[m.start()] < BOOLEANS)
}

// All four tests at once, and for both places, without a branch on what a place holds: first that it is low enough, then its sort.
fn places_fit(places: (Place, Place), i: NodeNo, n: Node<u16>, t: &[u16]) -> bool
    requires { i.0 < count t.now }
    ensures { result ≡ (all_fit psl_rules (use_of places.0) n.left i.0 (is_boolean psl_rules t.now n.left) && all_fit psl_rules (use_of places.1) n.right i.0 (is_boolean psl_rules t.now n.right)) }
{
    let (p, q) = places;
    if !table::places_low(places, i, n) {
        return false;
    }
    named_fits(p, n.left, t) & named_fits(q, n.right, t)
}

// A place that holds n is counted: if that is an operand, it is used once more. Where it is none, nothing is added, at node 0: that takes no branch.
fn count_place(p: Place, n: u16, c: &mut [u16])
    requires { CountRoom (use_of p) n c.old }
    ensures { Counted (use_of p) n c.old c.new }
{
    let at = NodeNo(p.operand(n)).index();
    let more = u16::from(p.is_operand());
    c[at] += more;
}

// The lowest node's refusal, if one is refused, or how often each node is an operand, counted from nothing.
// The loop stands beside that of LTL, which counts nothing: one for both would take a closure that can end it, and is no plainer. List and counts are no
// struct with `Tallied` as its ghost field: between the two places of a node they are those of no number of nodes.
fn count_uses(t: &[u16], c: &mut [u16]) -> Result<(), Refusal>
    requires { Tallied t.now 0 c.old }
    ensures answer { result ≡ checked (lowest (refusal_at psl_rules t.now) (count t.now)) }
    ensures counts { IfOk result (λ x. Tallied t.now (count t.now) c.new) }
{
    for (i, x) in table::nodes_of(t).iter().enumerate() {
        let own = NodeNo::from_index(i);
        let n = Node::from(*x);
        let Ok(kind) = Kind::try_from(n.kind) else {
            return table::refused_at::<Kind>(t, own);
        };
        let places = table::Kind::places(kind);
        if !places_fit(places, own, n, t) {
            return table::refused_at::<Kind>(t, own);
        }
        count_place(places.0, n.left, &mut *c);
        count_place(places.1, n.right, &mut *c);
    }
    Ok(())
}

// Every node but the last is an operand once, by the counts c, and the last is a formula. A table is a list of numbers here too, as C lends it.
fn check_uses(t: &[u16], c: &[u16]) -> Result<(), Refusal>
    requires { Tallied t.now (count t.now) c.now }
    ensures { result ≡ checked (tree_refusal t.now) }
{
    let last = t.len() / 3 - 1;
    if let Some(j) = c[..last].iter().position(|uses| *uses != 1) {
        let node = NodeNo::from_index(j).0;
        return Err(Refusal::PslUse { node });
    }
    if t[3 * last] < BOOLEANS {
        let node = NodeNo::from_index(last).0;
        return Err(Refusal::PslRoot { node });
    }
    Ok(())
}

// The nodes, and then their uses, which N counts have room for.
fn check_nodes<const N: usize>(t: &[u16]) -> Result<(), Refusal>
    requires { RoomForNodes t.now N }
    ensures { result ≡ checked (psl_refusal t.now) }
{
    let mut c = [0u16; N];
    count_uses(t, &mut c[..])?;
    check_uses(t, &c[..])
}

// Refusals 1 to 8. A small table has a small list of counts: it is cleared at each check.
pub fn check_psl(t: &[u16]) -> Result<(), Refusal>
    ensures { PslChecks t.now result }
{
    if !table::length_fits(MOST_NODES, t.len()) {
        return Err(Refusal::PslLength);
    }
    if t.len() <= 3 * FEW_NODES {
        check_nodes::<FEW_NODES>(t)
    } else {
        check_nodes::<MOST_NODES>(t)
    }
}

impl Checked for Kind {
    ghost use Rattle.psl.specs.Passes.{psl_passes};
    ghost use Rattle.std.specs.Prelude.{refl};

    ghost refusal = { psl_refusal };

    fn check(t: &[u16]) -> Result<(), Refusal> {
        check_psl(t)
    }

    ghost passes = { psl_passes };

    ghost few = { refl };
}
