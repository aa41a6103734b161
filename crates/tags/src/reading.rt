// Tags as a test writes them, and what reading them answers.
use fault::Reason;
use markup::{CellTag, TableTag, Tag, read_tag};
use std::process::Abort;

// What a tag says, or the reason for which it is refused.
pub(crate) type Answer = Result<Tag, Reason>;

pub(crate) fn table(cols: u32, spacing: u32, width: u32, padding: u32, border: u32) -> Tag {
    Tag::Table(TableTag {
        cols,
        spacing,
        width,
        padding,
        border,
    })
}

fn cell(head: bool, across: u32, down: u32) -> Tag {
    Tag::Cell(CellTag { head, across, down })
}

pub(crate) fn data(across: u32, down: u32) -> Tag {
    cell(false, across, down)
}

pub(crate) fn head(across: u32, down: u32) -> Tag {
    cell(true, across, down)
}

// Each tag, from after its "<" on, says what stands beside it. `outermost` tells that no table is open.
pub(crate) fn check(rt: &impl Abort, outermost: bool, cases: &[(&[u8], Answer)]) {
    for (bytes, answer) in cases {
        assert_eq!(rt; read(bytes, outermost), *answer);
    }
}

// How many bytes each tag has before its ">".
pub(crate) fn check_sizes(rt: &impl Abort, cases: &[(&[u8], Option<usize>)]) {
    for (bytes, size) in cases {
        assert_eq!(rt; read_tag(bytes, true).ok().map(|(_, n)| n), *size);
    }
}

fn read(bytes: &[u8], outermost: bool) -> Answer {
    read_tag(bytes, outermost).map(|(tag, _)| tag)
}
