// Lines are filled with words, each as long as the next word and its blank fit.
ghost use Rattle.std.specs.Prelude.{◌≡◌, ◌≤◌, length, take, replicate, MatchOption};
ghost use Rattle.letters.specs.Letters.{letters};
ghost use Rattle.letters.specs.declared.Kind.TheVariants.{Text};
ghost use Rattle.typeset.specs.Words.{words, longest};
ghost use Rattle.typeset.specs.Lines.{lines, shown, first};
ghost use Rattle.text.specs.Readings.{NoContent, Tells};

use crate::scan::Words;
use crate::survey::{Survey, begin, capped, measure};
use letters::{Kind, Letters};

/// Reads a text once: where its line r at width w begins, and all that is asked before it is shown.
pub(crate) fn survey_text(s: &[u8], w: u16, r: u16) -> Option<Survey>
    ensures { MatchOption result (NoContent Text s.now) (Tells Text s.now w r) }
{
    let width = w as usize;
    let row = r as usize;
    let mut least = 0;
    let mut most = 0;
    let mut high = 1;
    let mut taken = 0;
    let mut start = 0;
    for word in Words::new(s) {
        if !word.good {
            return None;
        }
        least = word.width.max(least);
        most = (most + word.width.min(65536) + 1).min(65536);
        if taken + word.width <= width {
            taken += word.width + 1;
        } else {
            start = begin(high, row, word.from, start);
            taken = word.width + 1;
            high += 1;
        }
    }
    Some(Survey {
        least: measure(least),
        most: measure(most.saturating_sub(1)),
        high: capped(high),
        start,
    })
}

// Writes the first characters of the bytes.
fn write_word(s: &[u8], out: &mut [u8])
    requires { length out.old ≤ length (letters Text s.now) }
    ensures { out.new ≡ take (length out.old) (letters Text s.now) }
{
    // No `zip`: of a loop over one the check does not learn what stands in `out` after it, so that `out.new` stays open.
    let mut letters = Letters::new(Kind::Text, s, 0);
    for x in out.iter_mut() {
        let Some((_, letter)) = letters.next() else {
            return;
        };
        *x = letter.glyph;
    }
}

/// Writes over blanks the words of the first line of the bytes.
pub(crate) fn write_text(s: &[u8], out: &mut [u8])
    requires narrow { length out.old ≤ 2000 }
    requires fits { longest (words (letters Text s.now)) ≤ length out.old }
    requires blank { out.old ≡ replicate (length out.old) 32 }
    ensures { out.new ≡ shown (length out.old) (first (lines (length out.old) (words (letters Text s.now)))) }
{
    let mut col = 0;
    for word in Words::new(s) {
        let end = col + word.width;
        if end > out.len() {
            return;
        }
        write_word(&s[word.from..], &mut out[col..end]);
        col = end + 1;
    }
}
