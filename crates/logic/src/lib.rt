// The meanings of PSL and LTL, and that the translation keeps them: definitions in specs/, proofs in proofs/. The code is what a letter is.
#![tactic(auto)]

ghost use Rattle.std.specs.Prelude.{◌≡◌};
ghost use Rattle.logic.specs.Letter.{bit};

// A letter: signal k holds where bit k is set.
pub type Letter = u32;

pub const LARGEST_LETTER: Letter = u32::MAX;

// How many signals there are.
pub const SIGNALS: u16 = 32;

// Whether signal k holds in a letter; past the signals none does.
pub fn holds_in(x: Letter, k: u16) -> bool
    ensures { result ≡ bit x k }
{
    if SIGNALS <= k {
        return false;
    }
    (x >> k) & 1 == 1
}
