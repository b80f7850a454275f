// Reading bytes and words of a line, from a place on.
ghost use Rattle.std.specs.Prelude.{◌≡◌, max, slice_get};
ghost use Rattle.trace.specs.declared.refusal.Refusal.TheVariants.{Shape};
ghost use Rattle.text.specs.Inner.Scan.{ByteRead, WordRead, EndRead};

use trace::Refusal;

// The most bytes of a line.
pub const MOST_BYTES: usize = 16384;

// The place of a line at which nothing can follow of what is read.
#[derive(Clone, Copy, Debug, PartialEq, Eq)]
pub struct Fault(pub usize);

// A line with a fault has not the shape of its kind.
impl From<Fault> for Refusal {
    ghost from_gives = { λ f e. e ≡ Shape f.0 };

    fn from(Fault(at): Fault) -> Refusal {
        Refusal::Shape { at }
    }
}

impl Fault {
    // Where neither of two readings can go on: the further of the two.
    pub fn further(self, other: Fault) -> Fault
        ensures { result.0 ≡ max self.0 other.0 }
    {
        Fault(self.0.max(other.0))
    }
}

// A line, and the place from which it is read. There is no invariant on the place, which would ask more of who makes one: past the line's end nothing stands. So readers of forms and of letters ask in
// their own contracts that it is within. A value behind `&mut` may be changed as a whole, so each reader says that the line stays.
#[derive(Clone, Copy, Debug)]
pub struct Cursor<'a> {
    pub line: &'a [u8],
    pub at: usize,
}

// The byte at a place.
pub fn byte(line: &[u8], at: usize) -> Option<u8>
    ensures { result ≡ slice_get line.now at }
{
    line.get(at).copied()
}

impl<'a> Cursor<'a> {
    // Past a byte, where it stands.
    pub fn accept(&mut self, b: u8) -> bool
        ensures line { self.new.line.now ≡ self.old.line.now }
        ensures read { ByteRead b self.old.line.now self.old.at self.new.at result }
    {
        if byte(self.line, self.at) != Some(b) {
            return false;
        }
        self.at += 1;
        true
    }

    // Past a word. A fault leaves the place as it was.
    pub fn expect(&mut self, word: &[u8]) -> Result<(), Fault>
        ensures line { self.new.line.now ≡ self.old.line.now }
        ensures read { WordRead word.now self.old.line.now self.old.at self.new.at result }
    {
        for (i, b) in word.iter().enumerate() {
            let at = self.at + i;
            if byte(self.line, at) != Some(*b) {
                return Err(Fault(at));
            }
        }
        self.at += word.len();
        Ok(())
    }

    // The line's end.
    pub fn end(&self) -> Result<(), Fault>
        ensures { EndRead self.now.line.now self.now.at result }
    {
        if self.at < self.line.len() {
            return Err(Fault(self.at));
        }
        Ok(())
    }
}
