// Copies into a lent list.
ghost use Rattle.std.specs.Prelude.{◌≡◌};
ghost use Rattle.std.proofs.lemmas.List.Edits.{sets};

use crate::put::put;

// A part into a lent list from its start on, as much of it as has room. One by one, since a copy of whole slices is compiled into a call of memcpy, and
// the library for C is to call memset alone.
pub fn copy_front<T: Copy>(part: &[T], out: &mut [T])
    ensures { out.new ≡ sets out.old 0 part.now }
{
    for (i, v) in part.iter().enumerate() {
        put(out, i, *v);
    }
}
