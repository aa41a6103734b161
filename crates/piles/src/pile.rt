// Layers over any shelf.
use crate::pages::*;
use layers::frame::Frame;
use layers::padding::Padding;
use shelf::Shelf;
use std::process::Abort;
use std::test::Fail;

// The layers over a shelf, the outermost named first. A number is the size of the padding, or of the frame where there is no padding; all
// else has size 1. An enum and no closure: each pile is of another type, and a closure cannot be generic over the shelf below.
#[derive(Clone, Copy)]
pub(crate) enum Pile {
    Bare,
    Padding(u8),
    Frame(u8),
    FramePadding(u8),
    PaddingFrame(u8),
    PaddingFramePaddingFrame,
}

// The shelf under the layers has these contents and no others.
pub(crate) fn check_pile<S: Shelf + Drop>(
    rt: &impl Abort,
    pile: Pile,
    below: S,
    contents: &[ContentSeen],
) -> Result<(), Fail> {
    match pile {
        Pile::Bare => check_shelf(rt, &below, contents),
        Pile::Padding(size) => check_shelf(rt, &Padding::new(below, size)?, contents),
        Pile::Frame(size) => check_shelf(rt, &Frame::new(below, size)?, contents),
        Pile::FramePadding(size) => {
            check_shelf(rt, &Frame::new(Padding::new(below, size)?, 1)?, contents)
        },
        Pile::PaddingFrame(size) => {
            check_shelf(rt, &Padding::new(Frame::new(below, 1)?, size)?, contents)
        },
        Pile::PaddingFramePaddingFrame => {
            let inner = Padding::new(Frame::new(below, 1)?, 1)?;
            check_shelf(rt, &Padding::new(Frame::new(inner, 1)?, 1)?, contents)
        },
    }
}
