// LTL tables and their check.
#![tactic(auto)]

mod kind;

ghost use Rattle.std.specs.Prelude.{◌≡◌};
ghost use Rattle.ltl.specs.Answer.{LtlChecks};

pub use kind::Kind;
use table::{Checked, Node, NodeNo, Table};
use trace::Refusal;

// The most nodes of a table.
pub const MOST_NODES: usize = 4096;

// An accepted LTL table.
pub type LtlTable<'a> = Table<'a, Kind>;

// Refusals 11 to 15.
pub fn check_ltl(t: &[u16]) -> Result<(), Refusal>
    ensures { LtlChecks t.now result }
{
    if !table::length_fits(MOST_NODES, t.len()) {
        return Err(Refusal::LtlLength);
    }
    // A loop of its own beside that of PSL tables, which also counts how often a node is used: in one for both a count would be made here that nothing reads.
    for (i, x) in table::nodes_of(t).iter().enumerate() {
        let own = NodeNo::from_index(i);
        if !table::low_node::<Kind>(own, Node::from(*x)) {
            return table::refused_at::<Kind>(t, own);
        }
    }
    Ok(())
}

impl Checked for Kind {
    ghost use Rattle.ltl.specs.Check.{ltl_refusal};
    ghost use Rattle.std.specs.Prelude.{refl};

    ghost refusal = { ltl_refusal };

    fn check(t: &[u16]) -> Result<(), Refusal> {
        check_ltl(t)
    }

    ghost passes = { λ t e. e };

    ghost few = { refl };
}
