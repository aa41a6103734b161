// What is no content, and which layers there are not. Where texts and blocks are joined, the texts have the even numbers.
use crate::files::*;
use crate::pages::*;
use crate::pile::*;
use fault::Reason;
use layers::frame::Frame;
use layers::padding::Padding;
use shelf::Shelf;
use std::process::Abort;
use std::test::Fail;
use text::shelves::TextShelf;

#[test]
fn markup(rt: HostRuntime) -> Result<(), Fail> {
    check_neither(&rt, &[b"<", b"a<b", b"a b <", b"<a>", b"&lt;<", b"\n\n<"])
}

#[test]
fn other_references(rt: HostRuntime) -> Result<(), Fail> {
    check_neither(
        &rt,
        &[
            b"&nbsp;",
            b"a &nbsp; b",
            b"&",
            b"a & b",
            b"&;",
            b"&lt",
            b"&lt ;",
            b"& lt;",
            b"&LT;",
            b"&apos;",
            b"&#60;",
            b"&amp&lt;",
            b"&amp;&",
        ],
    )
}

#[test]
fn other_bytes(rt: HostRuntime) -> Result<(), Fail> {
    check_neither(
        &rt,
        &[
            b"\x00",
            b"\x01",
            b"a\x01b",
            b"\x08",
            b"\x0b",
            b"\x0c",
            b"\x1f",
            b"\x7f",
            b"words and \x7f",
            b"\x80",
            b"\xc8",
            b"\xff",
        ],
    )
}

#[test]
fn a_reference_cut_by_the_end(rt: HostRuntime) -> Result<(), Fail> {
    check_file(
        &rt,
        Base::Joined,
        Pile::Bare,
        b"&lt;",
        &[(0, 3), (0, 4), (0, 1), (1, 4)],
        &[
            content(2, 1, 1, 1, b"<"),
            content(3, 1, 1, 1, b"<"),
            content(6, 3, 3, 3, b"lt;"),
            content(7, 3, 3, 3, b"lt;"),
        ],
    )
}

// A first byte past the last, a last past the end, both past the end; only the third place lies in the file.
#[test]
fn places_outside_the_file(rt: HostRuntime) -> Result<(), Fail> {
    check_file(
        &rt,
        Base::Joined,
        Pile::Bare,
        b"abc",
        &[
            (2, 1),
            (0, 4),
            (0, 3),
            (4, 4),
            (usize::MAX, 0),
            (0, usize::MAX),
        ],
        &[content(4, 3, 3, 3, b"abc"), content(5, 3, 3, 3, b"abc")],
    )
}

// A text has tabs and carriage returns, and a block has none.
#[test]
fn tabs_and_returns(rt: HostRuntime) -> Result<(), Fail> {
    check_file(
        &rt,
        Base::Joined,
        Pile::Bare,
        b"\ta\tb\r\nc\r",
        &[(0, 1), (1, 4), (4, 5), (3, 7), (5, 8), (5, 7)],
        &[
            content(0, 1, 1, 1, b" "),
            content(2, 1, 3, 1, b"ab"),
            content(2, 1, 3, 3, b"a b"),
            content(4, 1, 1, 1, b" "),
            content(6, 1, 3, 1, b"bc"),
            content(6, 1, 3, 3, b"b c"),
            content(8, 1, 1, 1, b"c"),
            content(10, 1, 1, 1, b"c"),
            content(11, 1, 1, 1, b" c"),
            content(11, 1, 1, 2, b"  c "),
        ],
    )
}

// The table of contents is empty.
#[test]
fn no_places(rt: HostRuntime) -> Result<(), Fail> {
    let contents = [content(0, 3, 3, 3, b"abc")];
    check_file(&rt, Base::Joined, Pile::Bare, b"abc", &[], &contents[1..])
}

fn check_sizes<S: Shelf + Copy>(rt: &impl Abort, below: S) -> Result<(), Fail> {
    for (padding, frame) in [(9, 2), (10, 3), (255, 255)] {
        check_refused(rt, Padding::new(below, padding), Reason::OutOfRange)?;
        check_refused(rt, Frame::new(below, frame), Reason::OutOfRange)?;
    }
    Ok(())
}

// Padding is at most 8 and a frame at most 1.
#[test]
fn sizes(rt: HostRuntime) -> Result<(), Fail> {
    let mut room = [UNUSED];
    let places = listed(&mut room, &[(0, 3)])?;
    check_sizes(&rt, TextShelf::new(b"abc", &places))
}
