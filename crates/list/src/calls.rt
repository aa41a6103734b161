// The calls of a list.
ghost use Rattle.std.specs.Prelude.{◌≡◌, ◌==◌, [], length, MatchResult};
ghost use Rattle.list.specs.Held.{items, spare, room, Pushed, Declined, Put, Popped};
ghost use Rattle.std.specs.List.{slice_get};

use crate::store::List;
use fault::{Fault, Reason};

impl<'a, T: Copy> List<'a, T> {
    /// An empty list with room for as many items as there are places.
    pub fn new(places: &'a mut [T]) -> List<'a, T>
        ensures items { items result ≡ [] }
        ensures spare { spare result ≡ places.old }
        ensures room { room result ≡ length places.old }
    {
        List { places, len: 0 }
    }

    /// How many items there are.
    pub fn len(&self) -> usize
        ensures { result ≡ length (items self.now) }
    {
        self.len
    }

    /// Whether there are no items.
    pub fn is_empty(&self) -> bool
        ensures { result ≡ (length (items self.now) == 0) }
    {
        self.len == 0
    }

    /// How many items there is room for in all.
    pub fn capacity(&self) -> usize
        ensures { result ≡ room self.now }
    {
        self.places.len()
    }

    /// Puts the item at the first place that is not used, and returns its number.
    pub fn push(&mut self, x: T) -> Result<usize, Fault>
        ensures { MatchResult result (λ i. Pushed self.old x i self.new) (λ f. Declined self.old f self.new) }
    {
        let at = self.len;
        if at >= self.places.len() {
            return Err(Fault::new(Reason::Full));
        }
        self.places[at] = x;
        self.len += 1;
        Ok(at)
    }

    /// A copy of item i.
    pub fn get(&self, i: usize) -> Option<T>
        ensures { result ≡ slice_get (items self.now) i }
    {
        self.items().get(i).copied()
    }

    // No loan of an item, as `get_mut`: the check does not cover one out of a lent slice that stands beside a ghost field. An item is copied
    // out, changed, and put back.
    /// Puts x in the place of item i; false where there is no such item.
    pub fn set(&mut self, i: usize, x: T) -> bool
        ensures { Put self.old i x self.new result }
    {
        if i < self.len {
            self.places[i] = x;
            true
        } else {
            false
        }
    }

    /// Takes the last item off, and returns it.
    pub fn pop(&mut self) -> Option<T>
        ensures { Popped self.old result self.new }
    {
        let last = self.items().last().copied()?;
        self.len -= 1;
        Some(last)
    }

    /// The items, for reading.
    pub fn items(&self) -> &[T]
        ensures { result.now ≡ items self.now }
    {
        &self.places[..self.len]
    }
}
