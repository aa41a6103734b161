// What the bytes of a tag say.
ghost use Rattle.std.specs.Prelude.{◌≡◌, ◌<◌, length, IfOk};
ghost use Rattle.markup.specs.Attributes.{value_in};
ghost use Rattle.markup.specs.First.{TagsAre};
ghost use Rattle.markup.specs.Tags.{name_of, table_of, cell_of, said, named_opening, named_ending, body_of, before, tag_of};
ghost use Rattle.markup.specs.Views.{closing};
ghost use Rattle.markup.specs.declared.record.Attribute.TheVariants.{Cols};

use crate::record::{Attribute, CellTag, Name, TableTag, Tag};
use crate::spans::{Span, spelled, split_run};
use crate::values::{Opening, Values};
use classes::{Class, class_of};
use fault::Reason;

// Each name as it is written.
const NAMES: [(&[u8], Name); 6] = [
    (b"table", Name::Table),
    (b"col", Name::Column),
    (b"tr", Name::Row),
    (b"td", Name::Data),
    (b"th", Name::Head),
    (b"pre", Name::Block),
];

// The name that the letters spell.
fn name_of(letters: &[u8]) -> Option<Name>
    ensures { result ≡ name_of letters.now }
{
    spelled(&NAMES, letters)
}

// The value of an attribute, if it was given.
fn value_in(values: &Values, attribute: Attribute) -> Option<u32>
    ensures { result ≡ value_in values.now attribute }
{
    values[attribute as usize]
}

// What a TABLE tag says: COLS has no default.
fn table_tag(values: &Values) -> Option<Tag>
    ensures { result ≡ table_of values.now (value_in values.now Cols) }
{
    // COLS alone has no default: by a rule of the project a tag without it is answered by a `let .. else`.
    let Some(cols) = value_in(values, Attribute::Cols) else {
        return None;
    };
    Some(Tag::Table(TableTag {
        cols,
        spacing: value_in(values, Attribute::Cellspacing).unwrap_or(1),
        width: value_in(values, Attribute::Width).unwrap_or(80),
        padding: value_in(values, Attribute::Cellpadding).unwrap_or(0),
        border: value_in(values, Attribute::Border).unwrap_or(0),
    }))
}

// What a TD or TH tag says.
fn cell_tag(values: &Values, head: bool) -> Tag
    ensures { result ≡ cell_of head values.now }
{
    Tag::Cell(CellTag {
        head,
        across: value_in(values, Attribute::Colspan).unwrap_or(1),
        down: value_in(values, Attribute::Rowspan).unwrap_or(1),
    })
}

// What a tag of that name says with those values.
fn said(values: &Values, name: Name) -> Option<Tag>
    ensures { result ≡ said values.now name }
{
    match name {
        Name::Table => table_tag(values),
        Name::Column => Some(Tag::Column(value_in(values, Attribute::Width).unwrap_or(0))),
        Name::Row => Some(Tag::Row),
        Name::Data => Some(cell_tag(values, false)),
        Name::Head => Some(cell_tag(values, true)),
        Name::Block => Some(Tag::Block),
    }
}

// A name and attributes.
fn opening_of(body: &[u8], outermost: bool) -> Option<Tag>
    ensures { result ≡ named_opening outermost body.now }
{
    let (letters, rest) = split_run(body, Span::Letters);
    let name = name_of(letters)?;
    let values = Opening { name, outermost }.values(rest)?;
    said(&values, name)
}

// A name and white space.
fn ending_of(body: &[u8]) -> Option<Tag>
    ensures { result ≡ named_ending body.now }
{
    let (letters, rest) = split_run(body, Span::Letters);
    let name = name_of(letters)?;
    let (_, more) = split_run(rest, Span::White);
    more.is_empty().then_some(Tag::End(name))
}

// What stands between "<" and ">".
fn body_of(body: &[u8], outermost: bool) -> Option<Tag>
    ensures { result ≡ body_of outermost body.now }
{
    match body.strip_prefix(b"/") {
        Some(rest) => ending_of(rest),
        None => opening_of(body, outermost),
    }
}

// How many bytes stand before the first ">".
fn close(rest: &[u8]) -> Result<usize, Reason>
    ensures value { result ≡ closing rest.now }
    ensures within { IfOk result (λ n. n < length rest.now) }
{
    for (n, b) in rest.iter().enumerate() {
        match class_of(*b) {
            Class::Greater => return Ok(n),
            Class::Forbidden => return Err(Reason::ByteNotAllowed),
            _ => {}
        }
    }
    Err(Reason::Malformed)
}

/// The tag after a "<", and how many bytes it has before its ">". `outermost` tells that no table is open.
pub fn read_tag(rest: &[u8], outermost: bool) -> Result<(Tag, usize), Reason>
    ensures value { result ≡ tag_of outermost rest.now }
    ensures within { IfOk result (λ p. (p.1 ≡ before rest.now) × (p.1 < length rest.now)) }
    ensures first { TagsAre }
{
    let n = close(rest)?;
    let tag = body_of(&rest[..n], outermost).ok_or(Reason::Malformed)?;
    Ok((tag, n))
}
