// What one reading of a content tells and shows, for texts and blocks alike.
ghost use Rattle.std.specs.Prelude.{◌≡◌, ◌≤◌, [], length, MatchOption, slice_index_or};
ghost use Rattle.typeset.specs.Lines.{blank_filled};
ghost use Rattle.typeset.specs.Contents.{content};
ghost use Rattle.text.specs.Readings.{NoContent, Tells};

use crate::fill::{survey_text, write_text};
use crate::rows::{survey_block, write_row};
use crate::survey::Survey;
use letters::Kind;
use shelf::spread;

// A match on the kind, here and in `show`, and no method of `Contents`: that trait is public, while a survey is private and `show` has
// conditions, which no public call has.
pub(crate) fn survey(kind: Kind, s: &[u8], w: u16, r: u16) -> Option<Survey>
    ensures { MatchOption result (NoContent kind s.now) (Tells kind s.now w r) }
{
    match kind {
        Kind::Text => survey_text(s, w, r),
        Kind::Block => survey_block(s, w, r),
    }
}

// Shows the first line of the content of these bytes. That they fit is asked by each writer of its own lines: of words, and of rows.
pub(crate) fn show(kind: Kind, s: &[u8], out: &mut [u8])
    requires narrow { length out.old ≤ 2000 }
    requires fits { (content kind s.now).least ≤ length out.old }
    ensures { out.new ≡ blank_filled (length out.old) (slice_index_or ((content kind s.now).lines_at (length out.old)) 0 []) }
{
    spread(out, b' ');
    match kind {
        Kind::Text => write_text(s, out),
        Kind::Block => write_row(s, out),
    }
}
