// A margin around every content of a shelf, of any size and of any three characters.
ghost use Rattle.std.specs.Prelude.{◌≡◌, ℕ, ◌*◌, ◌<◌, ◌≤◌, MatchResult};
ghost use Rattle.fault.specs.Numbers.{fault};
ghost use Rattle.fault.specs.declared.Reason.TheVariants.{OutOfRange};
ghost use Rattle.shelf.specs.Shelves.{Meaning, Lawful};
ghost use Rattle.shelf.specs.Margins.{margined};
ghost use Rattle.layers.specs.Margin.{inner_answer};

use fault::{Fault, Reason};
use shelf::{Shelf, WIDEST, spread};
use std::marker::PhantomData;

/// How many places a margin has at most on a side, and what it shows in its corners, above and under the content, and beside it.
pub trait Style {
    // what a shelf means with so many places of the margin around its contents
    ghost around: { ℕ → Meaning → Meaning };

    ghost MOST: { ℕ };

    ghost CORNER: { ℕ };

    ghost FLAT: { ℕ };

    ghost SIDE: { ℕ };

    const MOST: u8;

    const CORNER: u8;

    const FLAT: u8;

    const SIDE: u8;

    ghost shows: { (n : ℕ) (m : Meaning) → around n m ≡ margined CORNER FLAT SIDE n m };

    // the margin leaves a shelf as lawful as it was
    ghost keeps_lawful: { (n : ℕ) (m : Meaning) → Lawful m → Lawful (around n m) };
}

/// A shelf with `size` places of a margin on all four sides of each content of the shelf below.
#[derive(Drop)]
pub struct Margined<S, M> {
    below: S,
    size: u8,
    style: PhantomData<M>,
}

impl<S: Drop, M: Style> Margined<S, M> {
    /// The shelf below with a margin of at most as many places as the style has.
    pub fn new(below: S, size: u8) -> Result<Margined<S, M>, Fault>
        ensures { MatchResult result (λ s. (size ≤ M.MOST) × (s.below ≡ below) × (s.size ≡ size)) (λ f. (M.MOST < size) × (f ≡ fault OutOfRange 0)) }
    {
        if size > M::MOST {
            return Err(Fault::new(Reason::OutOfRange));
        }
        Ok(Margined {
            below,
            size,
            style: PhantomData,
        })
    }
}

impl<S: Shelf, M: Style> Margined<S, M> {
    // The places left and right of a content together, or above and under it.
    fn both(&self) -> u16
        ensures { result ≡ 2 * self.now.size }
    {
        2 * self.size as u16
    }

    // The height of the content inside the margin.
    fn inner_height(&self, k: u16, w: u16) -> Result<u16, Fault>
        ensures { result ≡ inner_answer self.now.size (S.meaning self.now.below) k w }
    {
        let (least, _) = self.below.widths(k)?;
        if w < least.saturating_add(self.both()) || w > WIDEST {
            return Err(Fault::new(Reason::UnfitWidth));
        }
        self.below.height(k, w - self.both())
    }
}

impl<S: Shelf, M: Style> Shelf for Margined<S, M> {
    ghost meaning = { λ s. M.around s.size (S.Shelf.meaning s.below) };

    ghost lawful = { λ s. M.keeps_lawful s.size (S.Shelf.meaning s.below) (S.Shelf.lawful s.below) };

    fn widths(&self, k: u16) -> Result<(u16, u16), Fault> {
        let (least, most) = self.below.widths(k)?;
        let both = self.both();
        Ok((least.saturating_add(both), most.saturating_add(both)))
    }

    fn height(&self, k: u16, w: u16) -> Result<u16, Fault> {
        let h = self.inner_height(k, w)?;
        Ok(h.saturating_add(self.both()))
    }

    fn line(&self, k: u16, w: u16, r: u16, out: &mut [u8]) -> Result<(), Fault> {
        let n = self.size as u16;
        let h = self.inner_height(k, w)?;
        if r >= h.saturating_add(self.both()) {
            return Err(Fault::new(Reason::PastLastLine));
        }
        if out.len() != w as usize {
            return Err(Fault::new(Reason::WrongLineLength));
        }
        let from = n as usize;
        let to = (w - n) as usize;
        if r < n || r - n >= h {
            spread(out, M::CORNER);
            spread(&mut out[from..to], M::FLAT);
            return Ok(());
        }
        spread(out, M::SIDE);
        self.below
            .line(k, w - self.both(), r - n, &mut out[from..to])
    }
}
