// Texts and blocks joined, under layers and over them.
use crate::files::*;
use crate::pages::*;
use crate::pile::*;
use std::test::Fail;

// Three places of this file, each both a text and a block, but for the third, which has a tab and is no block, and a fourth, which is
// neither.
const FILE: &[u8] = b"a bb\n&lt;d \tx<";

const ENDS: [(usize, usize); 4] = [(0, 11), (5, 11), (9, 13), (12, 14)];

#[test]
fn joined_alone(rt: HostRuntime) -> Result<(), Fail> {
    check_file(
        &rt,
        Base::Joined,
        Pile::Bare,
        FILE,
        &ENDS,
        &[
            content(0, 2, 7, 2, b"a bb<d"),
            content(0, 2, 7, 4, b"a bb<d  "),
            content(0, 2, 7, 7, b"a bb <d"),
            content(1, 4, 4, 4, b"a bb<d  "),
            content(1, 4, 4, 5, b"a bb <d   "),
            content(2, 2, 2, 2, b"<d"),
            content(2, 2, 2, 3, b"<d "),
            content(3, 3, 3, 3, b"<d "),
            content(3, 3, 3, 4, b"<d  "),
            content(4, 1, 3, 1, b"dx"),
            content(4, 1, 3, 3, b"d x"),
        ],
    )
}

#[test]
fn frame_over_padding_over_joined(rt: HostRuntime) -> Result<(), Fail> {
    const FIRST: &[u8] = b"\
        +---------+\
        |         |\
        | a bb <d |\
        |         |\
        +---------+";
    const SECOND: &[u8] = b"\
        +-------+\
        |       |\
        | a bb  |\
        | <d    |\
        |       |\
        +-------+";
    const THIRD: &[u8] = b"\
        +----+\
        |    |\
        | <d |\
        |    |\
        +----+";
    const FOURTH: &[u8] = b"\
        +-----+\
        |     |\
        | <d  |\
        |     |\
        +-----+";
    const FIFTH: &[u8] = b"\
        +---+\
        |   |\
        | d |\
        | x |\
        |   |\
        +---+";
    check_file(
        &rt,
        Base::Joined,
        Pile::FramePadding(1),
        FILE,
        &ENDS,
        &[
            content(0, 6, 11, 11, FIRST),
            content(1, 8, 8, 9, SECOND),
            content(2, 6, 6, 6, THIRD),
            content(3, 7, 7, 7, FOURTH),
            content(4, 5, 7, 5, FIFTH),
        ],
    )
}

#[test]
fn frame_over_joined_layers(rt: HostRuntime) -> Result<(), Fail> {
    const FIRST: &[u8] = b"\
        +----+\
        |    |\
        | a  |\
        | bb |\
        | <d |\
        |    |\
        +----+";
    const SECOND: &[u8] = b"\
        +------+\
        |+----+|\
        ||a bb||\
        ||<d  ||\
        |+----+|\
        +------+";
    const THIRD: &[u8] = b"\
        +----+\
        |    |\
        | <d |\
        |    |\
        +----+";
    const FOURTH: &[u8] = b"\
        +-------+\
        |+-----+|\
        ||<d   ||\
        |+-----+|\
        +-------+";
    const FIFTH: &[u8] = b"\
        +-----+\
        |     |\
        | d x |\
        |     |\
        +-----+";
    check_file(
        &rt,
        Base::Layered,
        Pile::Frame(1),
        FILE,
        &ENDS,
        &[
            content(0, 6, 11, 6, FIRST),
            content(1, 8, 8, 8, SECOND),
            content(2, 6, 6, 6, THIRD),
            content(3, 7, 7, 9, FOURTH),
            content(4, 5, 7, 7, FIFTH),
        ],
    )
}
