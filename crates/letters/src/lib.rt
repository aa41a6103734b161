// The characters that the bytes of a content stand for.
#![tactic(auto)]

ghost use Rattle.std.specs.Prelude.{◌≡◌, ◌-◌, ◌≤◌, min, not, length, ◌==◌, MatchOption};
ghost use Rattle.std.specs.Iterator.{at_most};
ghost use Rattle.classes.specs.Classes.{white};
ghost use Rattle.letters.specs.Letters.{begins, plain, allowed, letter_of, letter_at, Stepped};
ghost use Rattle.letters.specs.Walks.{Moves};
ghost use Rattle.letters.specs.Verdicts.{ends_badly, reason_of, verdict, Judged};

use classes::{Class, class_of};
use fault::{Fault, Reason};

/// The two kinds of content that a file holds: words, or lines as they stand.
#[derive(Clone, Copy, PartialEq, Eq, Debug)]
pub enum Kind {
    Text,
    Block,
}

/// A character, and the byte after its last one. The character 0 stands for a byte that begins none, as in `letters` of the specification.
#[derive(Clone, Copy, PartialEq, Eq, Debug)]
pub struct Letter {
    pub glyph: u8,
    pub next: usize,
}

impl Letter {
    /// Whether the byte begins a character.
    pub fn is_character(self) -> bool
        ensures { result ≡ not (self.glyph == 0) }
    {
        self.glyph != 0
    }
}

/// Whether a byte is white space.
pub fn is_white(b: u8) -> bool
    ensures { result ≡ white b }
{
    matches!(class_of(b), Class::White)
}

// Whether a byte may stand in a content at all.
fn is_allowed(kind: Kind, b: u8) -> bool
    ensures { result ≡ allowed kind b }
{
    match class_of(b) {
        Class::White => matches!(kind, Kind::Text) || b == b'\n' || b == b' ',
        Class::Forbidden => false,
        _ => true,
    }
}

// Whether a byte stands for itself.
fn is_plain(kind: Kind, b: u8) -> bool
    ensures { result ≡ plain kind b }
{
    is_allowed(kind, b) && b != b'<' && b != b'&'
}

fn starts(rest: &[u8], what: &[u8]) -> bool
    ensures { result ≡ begins what.now rest.now }
{
    rest.starts_with(what)
}

// The character that the bytes begin with, and how many bytes more than one it takes. Every reference begins with `&`, so that other bytes
// are compared with none of them. Each is compared by itself: a search in a table of them takes longer where there are many. Every character of
// a content comes by here. Inlined, as are `next_letter` and `next`, so that a loop over the characters of one kind asks for the kind once.
#[inline]
fn first_letter(kind: Kind, rest: &[u8]) -> (u8, usize)
    ensures { result ≡ letter_of kind rest.now }
{
    if let [b'&', ..] = rest {
        if starts(rest, b"&lt;") {
            return (b'<', 3);
        }
        if starts(rest, b"&gt;") {
            return (b'>', 3);
        }
        if starts(rest, b"&amp;") {
            return (b'&', 4);
        }
        if starts(rest, b"&quot;") {
            return (b'"', 5);
        }
    }
    match rest {
        [b, ..] if is_plain(kind, *b) => (*b, 0),
        _ => (0, 0),
    }
}

/// The character at a byte, or none past the last byte.
#[inline]
pub fn next_letter(kind: Kind, s: &[u8], at: usize) -> Option<Letter>
    ensures value { result ≡ letter_at kind s.now at }
    ensures steps { MatchOption result (length s.now ≤ at) (λ l. Stepped kind s.now at l.glyph l.next) }
{
    if at >= s.len() {
        return None;
    }
    let (glyph, more) = first_letter(kind, &s[at..]);
    Some(Letter {
        glyph,
        next: at + 1 + more,
    })
}

/// The characters of the bytes from one of them on, each with its first byte.
#[derive(Clone, Copy)]
pub struct Letters<'f> {
    kind: Kind,
    bytes: &'f [u8],
    at: usize,
    ghost within: { at ≤ length bytes.now },
}

impl<'f> Letters<'f> {
    /// The characters from byte `at` on, and none past the last byte.
    pub fn new(kind: Kind, bytes: &'f [u8], at: usize) -> Letters<'f>
        ensures kind { result.kind ≡ kind }
        ensures bytes { result.bytes.now ≡ bytes.now }
        ensures at { result.at ≡ min at (length bytes.now) }
    {
        Letters {
            kind,
            bytes,
            at: at.min(bytes.len()),
        }
    }
}

impl<'f> Iterator for Letters<'f> {
    type Item = (usize, Letter);

    ghost next_gives = { λ s r t. Moves s.kind s.bytes.now s.at t.kind t.bytes.now t.at r };

    ghost remaining = { λ s. at_most (length s.bytes.now - s.at) };

    #[inline]
    fn next(&mut self) -> Option<(usize, Letter)> {
        let at = self.at;
        let letter = next_letter(self.kind, self.bytes, at)?;
        self.at = letter.next;
        Some((at, letter))
    }
}

// Whether the bytes begin with small letters that end at a byte that is not allowed.
fn is_badly_ended(kind: Kind, bytes: &[u8]) -> bool
    ensures { result ≡ ends_badly kind bytes.now }
{
    bytes
        .iter()
        .find(|b| !b.is_ascii_lowercase())
        .is_some_and(|b| !is_allowed(kind, *b))
}

// Why no character begins where the bytes begin.
fn reason(kind: Kind, bytes: &[u8]) -> Reason
    ensures { result ≡ reason_of kind bytes.now }
{
    match bytes {
        [b'<', ..] => Reason::Malformed,
        [b'&', name @ ..] if !is_badly_ended(kind, name) => Reason::Malformed,
        _ => Reason::ByteNotAllowed,
    }
}

/// Whether all bytes are those of a content, or the first that is not.
pub fn verify(kind: Kind, s: &[u8]) -> Result<(), Fault>
    ensures value { result ≡ verdict kind s.now }
    ensures judged { Judged kind s.now result }
{
    for (at, letter) in Letters::new(kind, s, 0) {
        if !letter.is_character() {
            return Err(Fault::at(reason(kind, &s[at..]), at));
        }
    }
    Ok(())
}
