// The attributes of a tag and their values.
ghost use Rattle.std.specs.Prelude.{◌≡◌, ◌<◌, length, IfSome};
ghost use Rattle.markup.specs.Attributes.{attribute_of, no_values, bare_value, value_of, given_of, with_given, values_of};
ghost use Rattle.markup.specs.Spans.{digit, front};
ghost use Rattle.markup.specs.Tags.{may};
ghost use Rattle.markup.specs.Views.{as_given, and_rest, left, given_left};

use crate::record::{Attribute, Name};
use crate::spans::{Span, number, spelled, split_run};

/// The value of each attribute that was given, in the order of the attributes. An array, as there is no heap.
pub(crate) type Values = [Option<u32>; 7];

/// An attribute with its value.
#[derive(Clone, Copy)]
pub(crate) struct Given {
    name: Attribute,
    value: u32,
}

/// A tag that opens something: its name, and whether no table is open.
#[derive(Clone, Copy)]
pub(crate) struct Opening {
    pub(crate) name: Name,
    pub(crate) outermost: bool,
}

// Each attribute's name as it is written.
const ATTRIBUTES: [(&[u8], Attribute); 7] = [
    (b"cols", Attribute::Cols),
    (b"cellspacing", Attribute::Cellspacing),
    (b"width", Attribute::Width),
    (b"cellpadding", Attribute::Cellpadding),
    (b"border", Attribute::Border),
    (b"colspan", Attribute::Colspan),
    (b"rowspan", Attribute::Rowspan),
];

// The attribute of that name.
fn attribute_of(name: &[u8]) -> Option<Attribute>
    ensures { result ≡ attribute_of name.now }
{
    spelled(&ATTRIBUTES, name)
}

// 1 to 5 digits: what they come to, and what follows them.
fn digits(bytes: &[u8]) -> Option<(u32, &[u8])>
    ensures { and_rest result ≡ left bytes.now (bare_value bytes.now (front digit bytes.now)) }
{
    let (digits, rest) = split_run(bytes, Span::Digits);
    if digits.is_empty() || digits.len() > 5 {
        return None;
    }
    Some((number(digits), rest))
}

// Such a value, bare or between two quotes, and what follows it.
fn value_of(bytes: &[u8]) -> Option<(u32, &[u8])>
    ensures { and_rest result ≡ left bytes.now (value_of bytes.now) }
{
    let Some(quoted) = bytes.strip_prefix(b"\"") else {
        return digits(bytes);
    };
    let (value, rest) = digits(quoted)?;
    Some((value, rest.strip_prefix(b"\"")?))
}

// A name, "=", and a value, and what follows them.
fn given_of(bytes: &[u8]) -> Option<(Given, &[u8])>
    ensures value { and_rest result ≡ given_left bytes.now (given_of bytes.now) }
    ensures shorter { IfSome result (λ p. length p.1.now < length bytes.now) }
{
    let (letters, rest) = split_run(bytes, Span::Letters);
    let written = rest.strip_prefix(b"=")?;
    let name = attribute_of(letters)?;
    let (value, rest) = value_of(written)?;
    Some((Given { name, value }, rest))
}

impl Opening {
    // Whether the tag may have the attribute: WIDTH, CELLPADDING and BORDER stand only on the outermost table.
    fn may(self, attribute: Attribute) -> bool
        ensures { result ≡ may self.outermost self.name attribute }
    {
        match (self.name, attribute) {
            (Name::Table, Attribute::Cols | Attribute::Cellspacing) => true,
            (Name::Table, Attribute::Width | Attribute::Cellpadding | Attribute::Border) =>
                self.outermost,
            (Name::Column, Attribute::Width) => true,
            (Name::Data | Name::Head, Attribute::Colspan | Attribute::Rowspan) => true,
            _ => false,
        }
    }

    // The values with one more, if the tag may have it and has not.
    fn with(self, mut values: Values, given: Given) -> Option<Values>
        ensures { result ≡ with_given (may self.outermost self.name) values (as_given given) }
    {
        let i = given.name as usize;
        if !self.may(given.name) || values[i].is_some() {
            return None;
        }
        values[i] = Some(given.value);
        Some(values)
    }

    /// The values of the tag's attributes, from what stands after its name.
    pub(crate) fn values(self, bytes: &[u8]) -> Option<Values>
        ensures { result ≡ values_of (may self.outermost self.name) no_values 0 bytes.now }
    {
        let mut values = [None; 7];
        let mut rest = bytes;
        // By hand, as any step may refuse the whole: an iterator's items would be taken apart by the same two tests and `?`.
        loop {
            let (white, after) = split_run(rest, Span::White);
            if white.len() == rest.len() {
                return Some(values);
            }
            if white.is_empty() {
                return None;
            }
            let (given, after) = given_of(after)?;
            values = self.with(values, given)?;
            rest = after;
        }
    }
}
