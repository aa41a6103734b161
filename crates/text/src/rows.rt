// The lines of a block, as newlines part them.
ghost use Rattle.std.specs.Prelude.{◌≡◌, ◌≤◌, length, replicate, MatchOption};
ghost use Rattle.letters.specs.Letters.{letters};
ghost use Rattle.letters.specs.declared.Kind.TheVariants.{Block};
ghost use Rattle.typeset.specs.Words.{longest};
ghost use Rattle.typeset.specs.Lines.{first, blank_filled};
ghost use Rattle.typeset.specs.Rows.{rows};
ghost use Rattle.text.specs.Readings.{NoContent, Tells};

use crate::survey::{Survey, begin, capped, measure};
use letters::{Kind, Letters};

/// Reads a block once: where its line r begins, and all that is asked before it is shown.
pub(crate) fn survey_block(s: &[u8], w: u16, r: u16) -> Option<Survey>
    ensures { MatchOption result (NoContent Block s.now) (Tells Block s.now w r) }
{
    let row = r as usize;
    let mut least = 0usize;
    let mut width = 0usize;
    let mut high = 1;
    let mut start = 0;
    for (_, letter) in Letters::new(Kind::Block, s, 0) {
        if letter.glyph == b'\n' {
            start = begin(high, row, letter.next, start);
            least = width.max(least);
            width = 0;
            high += 1;
        } else if letter.is_character() {
            width += 1;
        } else {
            return None;
        }
    }
    let wide = measure(width.max(least));
    Some(Survey {
        least: wide,
        most: wide,
        high: capped(high),
        start,
    })
}

/// Writes over blanks the first line of the bytes.
pub(crate) fn write_row(s: &[u8], out: &mut [u8])
    requires fits { longest (rows (letters Block s.now)) ≤ length out.old }
    requires blank { out.old ≡ replicate (length out.old) 32 }
    ensures { out.new ≡ blank_filled (length out.old) (first (rows (letters Block s.now))) }
{
    // No `zip`: of a loop over one the check does not learn what stands in `out` after it, so that `out.new` stays open.
    let mut letters = Letters::new(Kind::Block, s, 0);
    for x in out.iter_mut() {
        match letters.next() {
            Some((_, letter)) if letter.glyph != b'\n' => *x = letter.glyph,
            _ => return,
        }
    }
}
