// Two shelves as one.
ghost use Rattle.std.specs.Prelude.{◌≡◌};
ghost use Rattle.shelf.specs.Joined.{joined};
ghost use Rattle.shelf.proofs.Joined.{joined_lawful};

use fault::Fault;
use shelf::Shelf;

/// Number 2k is number k of the first shelf, and 2k + 1 is number k of the second. The two are of different types, so each query chooses
/// between them for itself.
#[derive(Drop)]
pub struct Joined<A, B> {
    first: A,
    second: B,
}

impl<A, B> Joined<A, B> {
    /// The two shelves as one.
    pub fn new(first: A, second: B) -> Joined<A, B>
        ensures first { result.first ≡ first }
        ensures second { result.second ≡ second }
    {
        Joined { first, second }
    }
}

impl<A: Shelf, B: Shelf> Shelf for Joined<A, B> {
    ghost meaning = { λ s. joined (A.Shelf.meaning s.first) (B.Shelf.meaning s.second) };

    ghost lawful = { λ s. joined_lawful (A.Shelf.meaning s.first) (B.Shelf.meaning s.second) (A.Shelf.lawful s.first) (B.Shelf.lawful s.second) };

    fn widths(&self, k: u16) -> Result<(u16, u16), Fault> {
        if k % 2 == 0 {
            self.first.widths(k / 2)
        } else {
            self.second.widths(k / 2)
        }
    }

    fn height(&self, k: u16, w: u16) -> Result<u16, Fault> {
        if k % 2 == 0 {
            self.first.height(k / 2, w)
        } else {
            self.second.height(k / 2, w)
        }
    }

    fn line(&self, k: u16, w: u16, r: u16, out: &mut [u8]) -> Result<(), Fault> {
        if k % 2 == 0 {
            self.first.line(k / 2, w, r, out)
        } else {
            self.second.line(k / 2, w, r, out)
        }
    }
}
