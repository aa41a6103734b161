// Runs of bytes, words in either case, and numbers.
ghost use Rattle.std.specs.Prelude.{◌≡◌, ◌≤◌, length, take, drop, map};
ghost use Rattle.std.specs.Str.{str_eq_ignore_ascii_case};
ghost use Rattle.markup.specs.Spans.{front, number};
ghost use Rattle.markup.specs.Views.{in_span, spelled};

use classes::{Class, class_of};

/// What a run of bytes is made of.
#[derive(Clone, Copy)]
pub(crate) enum Span {
    White,
    Letters,
    Digits,
}

// Whether a byte belongs to such a run.
fn is_in(span: Span, b: u8) -> bool
    ensures { result ≡ in_span span b }
{
    matches!(
        (span, class_of(b)),
        (Span::White, Class::White) | (Span::Letters, Class::Letter) | (Span::Digits, Class::Digit)
    )
}

// How long the run is that the bytes begin with.
fn front(bytes: &[u8], span: Span) -> usize
    ensures { result ≡ front (in_span span) bytes.now }
{
    bytes
        .iter()
        .position(|b| !is_in(span, *b))
        .unwrap_or(bytes.len())
}

/// The run that the bytes begin with, and what follows it.
pub(crate) fn split_run(bytes: &[u8], span: Span) -> (&[u8], &[u8])
    ensures run { result.0.now ≡ take (front (in_span span) bytes.now) bytes.now }
    ensures rest { result.1.now ≡ drop (front (in_span span) bytes.now) bytes.now }
{
    bytes.split_at(front(bytes, span))
}

// Whether the bytes spell the word, in either case.
fn spells(bytes: &[u8], word: &[u8]) -> bool
    ensures { result ≡ str_eq_ignore_ascii_case bytes.now word.now }
{
    bytes.eq_ignore_ascii_case(word)
}

/// What stands beside the word that the bytes spell, in either case.
pub(crate) fn spelled<T: Copy>(words: &[(&[u8], T)], bytes: &[u8]) -> Option<T>
    ensures { result ≡ spelled (map (λ w. (w.0.now, w.1)) words.now) bytes.now }
{
    words
        .iter()
        .find(|(word, _)| spells(bytes, word))
        .map(|(_, named)| *named)
}

/// What up to five digits come to. A `for`, as nothing bounds what a `fold` carries from digit to digit.
pub(crate) fn number(digits: &[u8]) -> u32
    requires { length digits.now ≤ 5 }
    ensures { result ≡ number 0 digits.now }
{
    let mut n = 0;
    for d in digits {
        n = n * 10 + u32::from(d.saturating_sub(b'0'));
    }
    n
}
