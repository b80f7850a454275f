// The kinds of a PSL node.
ghost use Rattle.std.specs.Prelude.{◌≡◌};
ghost use Rattle.psl.specs.Kind.{number, KindIs};

use crate::BOOLEANS;
use table::{NoKind, NodeNo, Place, Refusals};
use trace::Refusal;

// Each has the number that stands for it in a table.
#[derive(Clone, Copy, Debug, PartialEq, Eq)]
pub enum Kind {
    True,
    Var,
    Bnot,
    Band,
    Weak,
    Strong,
    Not,
    And,
    Next,
    Until,
    Abort,
}

impl From<Kind> for u16 {
    ghost from_gives = { λ k n. n ≡ number k };

    fn from(k: Kind) -> u16 {
        k as u16
    }
}

impl TryFrom<u16> for Kind {
    type Error = NoKind;

    ghost try_from_gives = { KindIs };

    fn try_from(n: u16) -> Result<Kind, NoKind> {
        Ok(match n {
            0 => Kind::True,
            1 => Kind::Var,
            2 => Kind::Bnot,
            3 => Kind::Band,
            4 => Kind::Weak,
            5 => Kind::Strong,
            6 => Kind::Not,
            7 => Kind::And,
            8 => Kind::Next,
            9 => Kind::Until,
            10 => Kind::Abort,
            _ => return Err(NoKind),
        })
    }
}

// What stands left, and what stands right, kind by kind. A list, as for LTL.
static PLACES: [(Place, Place); 11] = [
    (Place::Unused, Place::Unused), // 0 true
    (Place::Signal, Place::Unused), // 1 var
    (Place::Boolean, Place::Unused), // 2 bnot
    (Place::Boolean, Place::Boolean), // 3 band
    (Place::Boolean, Place::Unused), // 4 weak
    (Place::Boolean, Place::Unused), // 5 strong
    (Place::Formula, Place::Unused), // 6 not
    (Place::Formula, Place::Formula), // 7 and
    (Place::Formula, Place::Unused), // 8 next
    (Place::Formula, Place::Formula), // 9 until
    (Place::Formula, Place::Boolean), // 10 abort
];

impl table::Kind for Kind {
    ghost use Rattle.psl.specs.Check.{psl_rules};

    ghost number = { number };

    ghost rules = { psl_rules };

    fn from_number(n: u16) -> Result<Kind, NoKind> {
        Kind::try_from(n)
    }

    fn places(self) -> (Place, Place) {
        PLACES[self as usize]
    }

    fn is_boolean(n: u16) -> bool {
        n < BOOLEANS
    }

    fn refusals(i: NodeNo) -> Refusals {
        let node = i.0;
        Refusals {
            kind: Refusal::PslKind { node },
            unused: Refusal::PslUnused { node },
            signal: Refusal::PslSignal { node },
            operand: Refusal::PslOperand { node },
            sort: Some(Refusal::PslSort { node }),
        }
    }
}
