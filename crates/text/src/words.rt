// How many words a text has.
ghost use Rattle.std.specs.Prelude.{◌≡◌, length};
ghost use Rattle.letters.specs.Letters.{letters};
ghost use Rattle.letters.specs.declared.Kind.TheVariants.{Text};
ghost use Rattle.typeset.specs.Words.{words};

use crate::scan::Words;

/// The number of words in the bytes of a text.
pub fn count_words(s: &[u8]) -> usize
    ensures { result ≡ length (words (letters Text s.now)) }
{
    Words::new(s).count()
}
