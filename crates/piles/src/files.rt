// Shelves over files, and layers over them.
use crate::pages::*;
use crate::pile::*;
use fault::Fault;
use layers::frame::Frame;
use layers::joined::Joined;
use layers::padding::Padding;
use letters::Kind;
use list::List;
use shelf::Shelf;
use std::process::Abort;
use std::test::Fail;
use text::place::Place;
use text::shelves::{BlockShelf, TextShelf};

// A file that is one content, number 0, as a test writes it.
#[derive(Clone, Copy)]
pub(crate) struct FileSeen<'a> {
    file: &'a [u8],
    content: ContentSeen<'a>,
}

pub(crate) fn case<'a>(
    file: &'a [u8],
    least: u16,
    most: u16,
    w: u16,
    page: &'a [u8],
) -> FileSeen<'a> {
    FileSeen {
        file,
        content: content(0, least, most, w, page),
    }
}

// What stands at some places of a file, which a pile of layers is put on. An enum, as each is a shelf of another type.
#[derive(Clone, Copy)]
pub(crate) enum Base {
    // one kind of content alone
    Only(Kind),
    // the places as texts and the same places as blocks, joined
    Joined,
    // the texts with padding 1 and the blocks with a frame, joined
    Layered,
}

// What an array is filled with before places are put into it.
pub(crate) const UNUSED: Place = Place { from: 1, to: 0 };

// Puts the places, each from a byte to a byte, into a list.
pub(crate) fn listed<'a>(
    room: &'a mut [Place],
    ends: &[(usize, usize)],
) -> Result<List<'a, Place>, Fault> {
    let mut places = List::new(room);
    for (from, to) in ends {
        places.push(Place {
            from: *from,
            to: *to,
        })?;
    }
    Ok(places)
}

// The places of the file have these contents under the layers and no others.
pub(crate) fn check_file(
    rt: &impl Abort,
    base: Base,
    pile: Pile,
    file: &[u8],
    ends: &[(usize, usize)],
    contents: &[ContentSeen],
) -> Result<(), Fail> {
    let mut room = [UNUSED; 8];
    let places = listed(&mut room, ends)?;
    check_base(
        rt,
        base,
        pile,
        TextShelf::new(file, &places),
        BlockShelf::new(file, &places),
        contents,
    )
}

fn check_base<A: Shelf + Copy, B: Shelf + Copy>(
    rt: &impl Abort,
    base: Base,
    pile: Pile,
    texts: A,
    blocks: B,
    contents: &[ContentSeen],
) -> Result<(), Fail> {
    match base {
        Base::Only(Kind::Text) => check_pile(rt, pile, texts, contents),
        Base::Only(Kind::Block) => check_pile(rt, pile, blocks, contents),
        Base::Joined => check_pile(rt, pile, Joined::new(texts, blocks), contents),
        Base::Layered => check_layered(rt, pile, texts, blocks, contents),
    }
}

fn check_layered<A: Shelf + Copy, B: Shelf + Copy>(
    rt: &impl Abort,
    pile: Pile,
    texts: A,
    blocks: B,
    contents: &[ContentSeen],
) -> Result<(), Fail> {
    check_pile(
        rt,
        pile,
        Joined::new(Padding::new(texts, 1)?, Frame::new(blocks, 1)?),
        contents,
    )
}

// Each whole file is such a content of the kind under the layers.
pub(crate) fn check_each(
    rt: &impl Abort,
    kind: Kind,
    pile: Pile,
    cases: &[FileSeen],
) -> Result<(), Fail> {
    for case in cases {
        check_file(
            rt,
            Base::Only(kind),
            pile,
            case.file,
            &[(0, case.file.len())],
            &[case.content],
        )?;
    }
    Ok(())
}

// No whole file is a text or a block, though the stretch of no bytes at its start is both.
pub(crate) fn check_neither(rt: &impl Abort, files: &[&[u8]]) -> Result<(), Fail> {
    for file in files {
        check_file(
            rt,
            Base::Joined,
            Pile::Bare,
            file,
            &[(0, file.len()), (0, 0)],
            &[content(2, 1, 1, 1, b" "), content(3, 1, 1, 1, b" ")],
        )?;
    }
    Ok(())
}
