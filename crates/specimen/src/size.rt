// How wide and tall a content is set.
ghost use Rattle.std.specs.Prelude.{◌≡◌};
ghost use Rattle.specimen.specs.Sizes.{size_answer};

use fault::Fault;
use shelf::Shelf;
use std::fmt;

/// The width that is wished for.
const WISHED: u16 = 60;

/// The widths that a content told, and the width and height that it is set at.
#[derive(Clone, Copy)]
pub(crate) struct Size {
    pub(crate) least: u16,
    pub(crate) most: u16,
    pub(crate) width: u16,
    pub(crate) height: u16,
}

impl fmt::Display for Size {
    fn fmt<W: fmt::Write>(&self, f: &mut fmt::Formatter<W>) -> fmt::Result {
        let Size {
            least,
            most,
            width,
            height,
        } = *self;
        write!(
            f,
            "widths from {least} to {most}\nset {width} wide, {height} high"
        )
    }
}

/// The size of content 0 at 60 columns, or at its minimum if that is larger.
pub(crate) fn measure<S: Shelf>(shelf: &S) -> Result<Size, Fault>
    ensures { result ≡ size_answer (S.meaning shelf.now) }
{
    let (least, most) = shelf.widths(0)?;
    let width = least.max(WISHED);
    let height = shelf.height(0, width)?;
    Ok(Size {
        least,
        most,
        width,
        height,
    })
}
