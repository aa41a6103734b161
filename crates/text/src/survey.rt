// What one reading of a content tells.
ghost use Rattle.std.specs.Prelude.{◌≡◌, min, ◌||◌, if◌then◌else◌, Ok, Err, nat_eq, nat_lt};
ghost use Rattle.fault.specs.Numbers.{fault};
ghost use Rattle.fault.specs.declared.Reason.TheVariants.{UnfitWidth};
ghost use Rattle.shelf.specs.Shelves.{widest};
ghost use Rattle.typeset.specs.Contents.{measured};

use fault::{Fault, Reason};
use shelf::WIDEST;

/// What the bytes of a content tell: its widths, its height at the width asked for, and where the line asked for begins.
#[derive(Clone, Copy)]
pub(crate) struct Survey {
    pub(crate) least: u16,
    pub(crate) most: u16,
    pub(crate) high: u16,
    pub(crate) start: usize,
}

impl Survey {
    // The height, if the content can be set at width w.
    pub(crate) fn height_at(&self, w: u16) -> Result<u16, Fault>
        ensures { result ≡ (if nat_lt w self.now.least || nat_lt widest w then Err (fault UnfitWidth 0) else Ok self.now.high) }
    {
        if w < self.least || w > WIDEST {
            return Err(Fault::new(Reason::UnfitWidth));
        }
        Ok(self.high)
    }
}

// A number, at most the largest that is told.
pub(crate) fn capped(n: usize) -> u16
    ensures { result ≡ min n 65535 }
{
    u16::try_from(n).unwrap_or(u16::MAX)
}

// A width, at least 1 and at most the largest number.
pub(crate) fn measure(n: usize) -> u16
    ensures { result ≡ measured n }
{
    capped(n.max(1))
}

// Where line r begins: at the byte at, if it is the next one, and else as told before.
pub(crate) fn begin(next: usize, r: usize, at: usize, before: usize) -> usize
    ensures { result ≡ (if nat_eq next r then at else before) }
{
    if next == r { at } else { before }
}
