// Lines around every content of a shelf.
ghost use Rattle.std.specs.Prelude.{refl};
ghost use Rattle.shelf.specs.Margins.{framed};
ghost use Rattle.shelf.proofs.Margins.{framed_lawful};

use crate::margin::{Margined, Style};

/// Lines: none at size 0, and one of `-` and `|` with `+` in the corners at 1.
#[derive(Drop)]
pub struct Lines;

impl Style for Lines {
    ghost around = { framed };

    ghost MOST = { 1 };

    ghost CORNER = { 43 };

    ghost FLAT = { 45 };

    ghost SIDE = { 124 };

    const MOST: u8 = 1;

    const CORNER: u8 = b'+';

    const FLAT: u8 = b'-';

    const SIDE: u8 = b'|';

    ghost shows = { λ n m. refl };

    ghost keeps_lawful = { framed_lawful };
}

/// A shelf with a frame around each content of the shelf below: none at border 0, a line at 1.
pub type Frame<S> = Margined<S, Lines>;
