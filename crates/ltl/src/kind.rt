// The kinds of an LTL node.
ghost use Rattle.std.specs.Prelude.{◌≡◌};
ghost use Rattle.ltl.specs.Kind.{number, KindIs};

use table::{NoKind, NodeNo, Place, Refusals};
use trace::Refusal;

// Each has the number that stands for it in a table.
#[derive(Clone, Copy, Debug, PartialEq, Eq)]
pub enum Kind {
    True,
    Var,
    Not,
    And,
    Or,
    Next,
    Until,
}

impl From<Kind> for u16 {
    ghost from_gives = { λ k n. n ≡ number k };

    fn from(k: Kind) -> u16 {
        k as u16
    }
}

impl TryFrom<u16> for Kind {
    type Error = NoKind;

    ghost try_from_gives = { KindIs };

    fn try_from(n: u16) -> Result<Kind, NoKind> {
        Ok(match n {
            0 => Kind::True,
            1 => Kind::Var,
            2 => Kind::Not,
            3 => Kind::And,
            4 => Kind::Or,
            5 => Kind::Next,
            6 => Kind::Until,
            _ => return Err(NoKind),
        })
    }
}

// What stands left, and what stands right, kind by kind. A list and no `match`, which became a branch on the kind in the loop of the check: 33 us
// for the largest tables, where this takes 8.
static PLACES: [(Place, Place); 7] = [
    (Place::Unused, Place::Unused), // 0 true
    (Place::Signal, Place::Unused), // 1 var
    (Place::Formula, Place::Unused), // 2 not
    (Place::Formula, Place::Formula), // 3 and
    (Place::Formula, Place::Formula), // 4 or
    (Place::Formula, Place::Unused), // 5 next
    (Place::Formula, Place::Formula), // 6 until
];

impl table::Kind for Kind {
    ghost use Rattle.ltl.specs.Check.{ltl_rules};

    ghost number = { number };

    ghost rules = { ltl_rules };

    fn from_number(n: u16) -> Result<Kind, NoKind> {
        Kind::try_from(n)
    }

    fn places(self) -> (Place, Place) {
        PLACES[self as usize]
    }

    // All nodes are formulas, so no operand is of the wrong sort.
    fn is_boolean(_n: u16) -> bool {
        false
    }

    fn refusals(i: NodeNo) -> Refusals {
        let node = i.0;
        Refusals {
            kind: Refusal::LtlKind { node },
            unused: Refusal::LtlUnused { node },
            signal: Refusal::LtlSignal { node },
            operand: Refusal::LtlOperand { node },
            sort: None,
        }
    }
}
