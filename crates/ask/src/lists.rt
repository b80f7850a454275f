// A list that is kept between requests.
ghost use Rattle.std.specs.Prelude.{◌≡◌, ◌≤◌, List, [], length, take, vec_len, IfOk, OnOk, OnErr};

use crate::faults::Fault;
use std::alloc::{AllocError, Global};
use std::marker::Model;

// A list of fixed length, of which the first so many places are in use. Those past them keep what was put there: it can be asked for.
#[derive(Drop)]
pub struct KeptList<T> {
    places: Vec<T>,
    used: usize,
}

impl<T> Model for KeptList<T> {
    ghost Value = { List T };

    ghost view = { λ l. take l.used l.places.items };

    ghost invariant = { λ l. l.used ≤ vec_len l.places };
}

// These become the first members of a list.
fn put_first<T: Copy>(list: &mut [T], items: &[T])
    requires { length items.now ≤ length list.old }
    ensures { take (length items.now) list.new ≡ items.now }
{
    list[..items.len()].copy_from_slice(items);
}

impl<T: Copy> KeptList<T> {
    pub fn new(alloc: Global, length: usize, zero: T) -> Result<KeptList<T>, AllocError>
        ensures { IfOk result (λ l. l ≡ []) }
    {
        let places = vec![in alloc; zero; length]?;
        Ok(KeptList { places, used: 0 })
    }

    // The places in use.
    pub fn used(&self) -> &[T]
        ensures { result.now ≡ self.now }
    {
        &self.places[..self.used]
    }

    // The first so many places, or all.
    pub fn front(&self, n: usize) -> &[T] {
        &self.places[..n.min(self.places.len())]
    }

    // The same, to be written.
    pub fn front_mut(&mut self, n: usize) -> &mut [T] {
        let end = n.min(self.places.len());
        &mut self.places[..end]
    }

    // The first so many places are in use, or all.
    pub fn set_used(&mut self, n: usize) {
        self.used = n.min(self.places.len());
    }

    // These become the list. Where it has no room for them, it stays.
    pub fn replace(&mut self, items: &[T]) -> Result<(), Fault>
        ensures ok { OnOk result (self.new ≡ items.now) }
        ensures err { OnErr result (self.new ≡ self.old) }
    {
        let n = items.len();
        if self.places.len() < n {
            return Err(Fault::NotUnderstood);
        }
        put_first(&mut self.places, items);
        self.used = n;
        Ok(())
    }
}
