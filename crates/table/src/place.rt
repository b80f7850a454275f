// What a place of a node holds.
ghost use Rattle.std.specs.Prelude.{◌≡◌, ◌&&◌};
ghost use Rattle.table.specs.Rules.{is_operand};
ghost use Rattle.table.specs.Check.{unused_fits, signal_fits, operand_fits, sort_fits};
ghost use Rattle.table.specs.Inner.Place.{use_of, operand_or, low_fits};

use crate::{Node, NodeNo};
use logic::SIGNALS;

// 0, or a signal, or the number of an operand, which is a formula or a Boolean.
#[derive(Clone, Copy, Debug, PartialEq, Eq)]
pub enum Place {
    Unused,
    Signal,
    Formula,
    Boolean,
}

// The bits of a place's number that name an operand. A list, since as an `if` it became a branch in the loop that counts uses.
static OPERAND_BITS: [u16; 4] = [0, 0, 65535, 65535];

impl Place {
    // The tests of a place that holds n.
    pub fn unused_fits(self, n: u16) -> bool
        ensures { result ≡ unused_fits (use_of self) n }
    {
        match self {
            Place::Unused => n == 0,
            Place::Signal | Place::Formula | Place::Boolean => true,
        }
    }

    pub fn signal_fits(self, n: u16) -> bool
        ensures { result ≡ signal_fits (use_of self) n }
    {
        match self {
            Place::Signal => n < SIGNALS,
            Place::Unused | Place::Formula | Place::Boolean => true,
        }
    }

    pub fn operand_fits(self, n: u16, i: NodeNo) -> bool
        ensures { result ≡ operand_fits (use_of self) n i.0 }
    {
        match self {
            Place::Formula | Place::Boolean => n < i.0,
            Place::Unused | Place::Signal => true,
        }
    }

    pub fn sort_fits(self, b: bool) -> bool
        ensures { result ≡ sort_fits (use_of self) b }
    {
        (!self.is_operand()) | (b == (self == Place::Boolean))
    }

    pub fn is_operand(self) -> bool
        ensures { result ≡ is_operand (use_of self) }
    {
        matches!(self, Place::Formula | Place::Boolean)
    }

    // The number of its operand where it holds n; 0 where it has none.
    pub fn operand(self, n: u16) -> u16
        ensures { result ≡ operand_or (use_of self) n 0 }
    {
        n & OPERAND_BITS[self as usize]
    }
}

// Both places of node i are low enough: an operand is below i. The limits stand in a list, of which a read takes no branch.
pub fn places_low(places: (Place, Place), i: NodeNo, n: Node<u16>) -> bool
    ensures { result ≡ (low_fits (use_of places.0) n.left i.0 && low_fits (use_of places.1) n.right i.0) }
{
    let limits = [1, SIGNALS, i.0, i.0];
    (n.left < limits[places.0 as usize]) & (n.right < limits[places.1 as usize])
}
