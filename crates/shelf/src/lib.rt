// The one interface through which contents are met: how wide and tall each is, and what its lines show.
#![tactic(auto)]

ghost use Rattle.std.specs.Prelude.{◌≡◌, length, replicate};
ghost use Rattle.shelf.specs.Shelves.{Meaning, Lawful};
ghost use Rattle.shelf.specs.Answers.{widths_answer, height_answer, line_answer, written};

use fault::Fault;

/// The widest that any content is set.
pub const WIDEST: u16 = 2000;

/// A set of contents, by number. The queries leave it unchanged, and each answers what the shelf's meaning says.
pub trait Shelf {
    // what the shelf has and shows
    ghost meaning: { Self → Meaning };

    // owed by every implementation; data and no law, so that other data and clauses may cite it
    ghost lawful: { (s : Self) → Lawful (meaning s) };

    /// The minimum and the maximum width of content k.
    fn widths(&self, k: u16) -> Result<(u16, u16), Fault>
        ensures { result ≡ widths_answer (meaning self.now) k };

    /// How many lines content k takes at width w.
    fn height(&self, k: u16, w: u16) -> Result<u16, Fault>
        ensures { result ≡ height_answer (meaning self.now) k w };

    /// Writes line r of content k at width w into `out`, which has w bytes.
    fn line(&self, k: u16, w: u16, r: u16, out: &mut [u8]) -> Result<(), Fault>
        ensures answer { result ≡ line_answer (meaning self.now) k w r (length out.old) }
        ensures after { out.new ≡ written (meaning self.now) k w r result out.old };
}

/// Writes v at each place.
pub fn spread(out: &mut [u8], v: u8)
    ensures { out.new ≡ replicate (length out.old) v }
{
    out.fill(v);
}
