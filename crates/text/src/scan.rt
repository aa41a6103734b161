// Words are found in the bytes, one after the other.
ghost use Rattle.std.specs.Prelude.{◌≡◌, ◌+◌, ◌-◌, ◌<◌, ◌≤◌, true, ◌&&◌, [], length, take, MatchOption};
ghost use Rattle.std.specs.Iterator.{at_most};
ghost use Rattle.letters.specs.Letters.{letters_from, sound};
ghost use Rattle.letters.specs.declared.Kind.TheVariants.{Text};
ghost use Rattle.typeset.specs.Words.{words_from, closed, inked};
ghost use Rattle.text.specs.Scans.{Skipped, Scans};

use letters::{Kind, Letters, is_white};

/// A word: where it begins, the byte after its last, how many characters it has, and whether its bytes are all characters. A word of
/// other bytes is a word too, and counted, so this is told beside the rest.
#[derive(Clone, Copy)]
pub(crate) struct Word {
    pub(crate) from: usize,
    pub(crate) to: usize,
    pub(crate) width: usize,
    pub(crate) good: bool,
}

/// The words of a text, in order.
#[derive(Clone, Copy)]
pub(crate) struct Words<'f> {
    bytes: &'f [u8],
    at: usize,
    ghost within: { at ≤ length bytes.now },
}

impl<'f> Words<'f> {
    pub(crate) fn new(bytes: &'f [u8]) -> Words<'f>
        ensures bytes { result.bytes.now ≡ bytes.now }
        ensures at { result.at ≡ 0 }
    {
        Words { bytes, at: 0 }
    }

    // The first byte from here on that begins a character other than white space.
    fn next_start(&self) -> Option<usize>
        ensures { MatchOption result ((words_from self.now.bytes.now self.now.at ≡ []) × (sound (letters_from Text self.now.bytes.now self.now.at) ≡ true)) (λ from. Skipped self.now.bytes.now self.now.at from) }
    {
        for (at, letter) in Letters::new(Kind::Text, self.bytes, self.at) {
            if !is_white(letter.glyph) {
                return Some(at);
            }
        }
        None
    }
}

impl<'f> Iterator for Words<'f> {
    type Item = Word;

    ghost next_gives = { λ s r t. Scans s.bytes.now s.at t.bytes.now t.at r };

    ghost remaining = { λ s. at_most (length s.bytes.now - s.at) };

    fn next(&mut self) -> Option<Word> {
        let from = self.next_start()?;
        let word = word_at(self.bytes, from);
        self.at = word.to;
        Some(word)
    }
}

// The characters from a byte on, up to white space or the end.
fn word_at(s: &[u8], from: usize) -> Word
    requires { from ≤ length s.now }
    ensures from { result.from ≡ from }
    ensures low { from + result.width ≤ result.to }
    ensures high { result.to ≤ length s.now }
    ensures wide { result.width ≤ length (letters_from Text s.now from) }
    ensures same { words_from s.now from ≡ closed (take result.width (letters_from Text s.now from)) (words_from s.now result.to) }
    ensures checked { sound (letters_from Text s.now from) ≡ (result.good && sound (letters_from Text s.now result.to)) }
    ensures some { inked (letters_from Text s.now from) ≡ true → 0 < result.width }
{
    let mut width = 0;
    let mut good = true;
    for (at, letter) in Letters::new(Kind::Text, s, from) {
        if is_white(letter.glyph) {
            return Word {
                from,
                to: at,
                width,
                good,
            };
        }
        width += 1;
        good &= letter.is_character();
    }
    Word {
        from,
        to: s.len(),
        width,
        good,
    }
}
