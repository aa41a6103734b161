// Blanks around every content of a shelf.
ghost use Rattle.std.specs.Prelude.{refl};
ghost use Rattle.shelf.specs.Margins.{padded};
ghost use Rattle.shelf.proofs.Margins.{padded_lawful};

use crate::margin::{Margined, Style};

/// The most blanks on a side.
pub const MOST: u8 = 8;

/// Blanks, up to 8 on a side.
#[derive(Drop)]
pub struct Blanks;

impl Style for Blanks {
    ghost around = { padded };

    ghost MOST = { 8 };

    ghost CORNER = { 32 };

    ghost FLAT = { 32 };

    ghost SIDE = { 32 };

    const MOST: u8 = MOST;

    const CORNER: u8 = b' ';

    const FLAT: u8 = b' ';

    const SIDE: u8 = b' ';

    ghost shows = { λ n m. refl };

    ghost keeps_lawful = { padded_lawful };
}

/// A shelf with padding around each content of the shelf below.
pub type Padding<S> = Margined<S, Blanks>;
