// A lent list that texts are put into.
ghost use Rattle.std.specs.Prelude.{◌≡◌};
ghost use Rattle.text.specs.Inner.Put.{Wrote, lent_join};

use crate::copy::copy_front;
use crate::put::Sink;

// The list, and the place from which the next text is put. Nothing is asked of the place: past the list's end nothing is put.
#[derive(Drop)]
pub struct Lent<'a> {
    pub list: &'a mut [u8],
    pub at: usize,
}

impl<'a> Lent<'a> {
    // A list, from a place on.
    pub fn new(list: &'a mut [u8], at: usize) -> Lent<'a>
        ensures same_list { result.list.ghost_name ≡ list.entry.ghost_name }
        ensures whole { result.list.now ≡ list.old }
        ensures place { result.at ≡ at }
    {
        Lent { list, at }
    }
}

impl<'a> Sink for Lent<'a> {
    ghost Put = { Wrote };

    ghost join = { lent_join };

    fn put_text(&mut self, w: &[u8]) {
        if self.list.len() <= self.at {
            return;
        }
        let end = (self.list.len() - self.at).min(w.len());
        copy_front(w, &mut self.list[self.at..]);
        self.at += end;
    }
}
