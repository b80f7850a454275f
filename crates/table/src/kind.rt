// A kind of node.
ghost use Rattle.std.specs.Prelude.{◌≡◌, ℕ, List, leb, true, Result};
ghost use Rattle.std.proofs.Math.Option.{Option, none};
ghost use Rattle.trace.specs.declared.refusal.Refusal.{Refusal as TheRefusal};
ghost use Rattle.table.specs.Answer.{checked};
ghost use Rattle.table.specs.Rules.{Rules, shape_of, boolean_kind};
ghost use Rattle.table.specs.Check.{table_refusal};
ghost use Rattle.table.specs.Kind.{KindIs, refusals_of};
ghost use Rattle.table.specs.Inner.Place.{uses_of};

use crate::NodeNo;
use crate::place::Place;
use thiserror::Error;
use trace::Refusal;

// A number that is no kind of node.
#[derive(Clone, Copy, Debug, PartialEq, Eq, Error)]
#[error("no kind of node has this number")]
pub struct NoKind;

// The refusals of a node, by what is wrong with it. Where there are no sorts, there is none of a sort.
#[derive(Clone, Copy)]
pub struct Refusals {
    pub kind: Refusal,
    pub unused: Refusal,
    pub signal: Refusal,
    pub operand: Refusal,
    pub sort: Option<Refusal>,
}

// The kinds of PSL nodes, or those of LTL nodes, with the rules of their tables.
pub trait Kind: Copy {
    ghost number: { Self → ℕ };

    ghost rules: { Rules };

    // Not `TryFrom` above this trait: each type has a second one, by `Into`, and a bound may have one alone.
    fn from_number(n: u16) -> Result<Self, NoKind>
        ensures { KindIs rules number n result };

    // What stands left, and what stands right.
    fn places(self) -> (Place, Place)
        ensures { uses_of result ≡ shape_of rules (number self) };

    // The number of a Boolean kind. It takes a number, since what an operand's place names need not be of a kind.
    fn is_boolean(n: u16) -> bool
        ensures { result ≡ boolean_kind rules.sorts n };

    // By what node i is refused.
    fn refusals(i: NodeNo) -> Refusals
        ensures { result ≡ refusals_of rules i.0 };
}

// A kind of node whose tables have a check.
pub trait Checked: Kind {
    // What the whole check of a table refuses.
    ghost refusal: { List ℕ → Option TheRefusal };

    fn check(t: &[u16]) -> Result<(), Refusal>
        ensures { result ≡ checked (refusal t.now) };

    // An accepted table passes what both checks share, and the numbers of its nodes have 16 bits.
    ghost passes: { (t : List ℕ) → refusal t ≡ none → table_refusal Self.rules t ≡ none };

    ghost few: { leb Self.rules.most 65536 ≡ true };
}
