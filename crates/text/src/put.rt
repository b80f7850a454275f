// Texts put one behind the other, and values put into a lent list. What has no room is left out: so nothing is asked of either.
ghost use Rattle.std.specs.Prelude.{◌≡◌, List, ℕ, [], ◌∷◌, ◌++◌, take, set};
ghost use Rattle.text.specs.Spelling.{digits};
ghost use Rattle.text.specs.Inner.Put.{vector_join};

use arrayvec::ArrayVec;

// What texts are put into. Texts are put by functions and not by `Display`, of whose text no contract can speak.
pub trait Sink {
    // The text was put into the first, which became the second.
    ghost Put: { Self → List ℕ → Self → Type 0 };

    // As many bytes of a text as have room.
    fn put_text(&mut self, w: &[u8])
        ensures { Put self.old w.now self.new };

    // A text behind a text.
    ghost join: { (a b c : Self) (v w : List ℕ) → Put a v b → Put b w c → Put a (v ++ w) c };
}

// A vector takes them behind its bytes.
impl<const N: usize> Sink for ArrayVec<u8, N> {
    ghost Put = { λ a w b. b.items ≡ take N (a.items ++ w) };

    ghost join = { λ a b c. vector_join N a.items b.items c.items };

    fn put_text(&mut self, w: &[u8]) {
        let end = self.remaining_capacity().min(w.len());
        let _all = self.try_extend_from_slice(&w[..end]);
    }
}

// A byte.
pub fn put_byte<S: Sink>(out: &mut S, b: u8)
    ensures { S.Put out.old (b ∷ []) out.new }
{
    out.put_text(&[b])
}

// A number in decimal.
#[tactic(auto, using(crate::proofs::WriterLaw::digits_decimal))]
pub fn put_number<S: Sink>(out: &mut S, n: u64)
    ensures { S.Put out.old (digits n) out.new }
{
    let mut digits = itoa::Buffer::new();
    out.put_text(digits.format(n).as_bytes())
}

// A value at a place of a lent list, nothing past the list's end. By `get_mut` the proof did not close: its goals name values of Rattle's own.
pub fn put<T: Copy>(out: &mut [T], at: usize, v: T)
    ensures { out.new ≡ set out.old at v }
{
    if at < out.len() {
        out[at] = v;
    }
}
