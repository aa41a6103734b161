// One layer over texts or blocks. Each test is a table of cases for `check_each`, so that they are alike in all but their tables.
// A blank that begins a line of a page is written \x20, since a bare one would be skipped.
use crate::files::*;
use crate::pile::*;
use letters::Kind;
use std::test::Fail;

#[test]
fn padding_0(rt: HostRuntime) -> Result<(), Fail> {
    check_each(
        &rt,
        Kind::Text,
        Pile::Padding(0),
        &[
            case(b"a bb ccc", 3, 8, 3, b"a  bb ccc"),
            case(b"a bb ccc", 3, 8, 4, b"a bbccc "),
            case(b"a bb ccc", 3, 8, 8, b"a bb ccc"),
        ],
    )?;
    check_each(
        &rt,
        Kind::Block,
        Pile::Padding(0),
        &[
            case(b"a bb\nccc", 4, 4, 4, b"a bbccc "),
            case(b"a bb\nccc", 4, 4, 6, b"a bb  ccc   "),
        ],
    )
}

#[test]
fn padding_1_over_text(rt: HostRuntime) -> Result<(), Fail> {
    const NARROW: &[u8] = b"\
        \x20    \
        \x20a   \
        \x20bb  \
        \x20ccc \
        \x20    ";
    const BETWEEN: &[u8] = b"\
        \x20      \
        \x20a bb  \
        \x20ccc   \
        \x20      ";
    const WIDE: &[u8] = b"\
        \x20          \
        \x20a bb ccc  \
        \x20          ";
    check_each(
        &rt,
        Kind::Text,
        Pile::Padding(1),
        &[
            case(b"a bb ccc", 5, 10, 5, NARROW),
            case(b"a bb ccc", 5, 10, 7, BETWEEN),
            case(b"a bb ccc", 5, 10, 11, WIDE),
            case(b" ", 3, 3, 3, b"         "),
        ],
    )
}

#[test]
fn padding_1_over_block(rt: HostRuntime) -> Result<(), Fail> {
    const NARROW: &[u8] = b"\
        \x20    \
        \x20a   \
        \x20 bb \
        \x20    \
        \x20c   \
        \x20    ";
    const WIDE: &[u8] = b"\
        \x20      \
        \x20a     \
        \x20 bb   \
        \x20      \
        \x20c     \
        \x20      ";
    check_each(
        &rt,
        Kind::Block,
        Pile::Padding(1),
        &[
            case(b"a\n bb\n\nc", 5, 5, 5, NARROW),
            case(b"a\n bb\n\nc", 5, 5, 7, WIDE),
            case(b"\n", 3, 3, 3, b"            "),
        ],
    )
}

#[test]
fn padding_3(rt: HostRuntime) -> Result<(), Fail> {
    const TEXT: &[u8] = b"\
        \x20         \
        \x20         \
        \x20         \
        \x20  a bb   \
        \x20  ccc    \
        \x20         \
        \x20         \
        \x20         ";
    check_each(
        &rt,
        Kind::Text,
        Pile::Padding(3),
        &[case(b"a bb ccc", 9, 14, 10, TEXT)],
    )?;
    const BLOCK: &[u8] = b"\
        \x20          \
        \x20          \
        \x20          \
        \x20          \
        \x20  b  b    \
        \x20   c      \
        \x20          \
        \x20          \
        \x20          ";
    check_each(
        &rt,
        Kind::Block,
        Pile::Padding(3),
        &[case(b"\nb  b\n c", 10, 10, 11, BLOCK)],
    )
}

#[test]
fn padding_8(rt: HostRuntime) -> Result<(), Fail> {
    const TEXT: &[u8] = b"\
        \x20                \
        \x20                \
        \x20                \
        \x20                \
        \x20                \
        \x20                \
        \x20                \
        \x20                \
        \x20       a        \
        \x20       b        \
        \x20                \
        \x20                \
        \x20                \
        \x20                \
        \x20                \
        \x20                \
        \x20                \
        \x20                ";
    check_each(
        &rt,
        Kind::Text,
        Pile::Padding(8),
        &[case(b" a b", 17, 19, 17, TEXT)],
    )?;
    const BLOCK: &[u8] = b"\
        \x20                 \
        \x20                 \
        \x20                 \
        \x20                 \
        \x20                 \
        \x20                 \
        \x20                 \
        \x20                 \
        \x20       &         \
        \x20                 \
        \x20                 \
        \x20                 \
        \x20                 \
        \x20                 \
        \x20                 \
        \x20                 \
        \x20                 ";
    check_each(
        &rt,
        Kind::Block,
        Pile::Padding(8),
        &[case(b"&amp;", 17, 17, 18, BLOCK)],
    )
}

// A word of 1998 has room for padding 1 on a line of 2000.
#[test]
fn padding_at_2000(rt: HostRuntime) -> Result<(), Fail> {
    let mut page = [b' '; 6000];
    page[2001..3999].fill(b'x');
    check_each(
        &rt,
        Kind::Text,
        Pile::Padding(1),
        &[
            case(&[b'x'; 1998], 2000, 2000, 2000, &page),
            case(&[b'x'; 1999], 2001, 2001, 2000, b""),
        ],
    )
}

#[test]
fn frame_0(rt: HostRuntime) -> Result<(), Fail> {
    check_each(
        &rt,
        Kind::Text,
        Pile::Frame(0),
        &[
            case(b"a bb ccc", 3, 8, 3, b"a  bb ccc"),
            case(b"a bb ccc", 3, 8, 4, b"a bbccc "),
            case(b"a bb ccc", 3, 8, 8, b"a bb ccc"),
        ],
    )?;
    check_each(
        &rt,
        Kind::Block,
        Pile::Frame(0),
        &[
            case(b"a bb\nccc", 4, 4, 4, b"a bbccc "),
            case(b"a bb\nccc", 4, 4, 6, b"a bb  ccc   "),
        ],
    )
}

#[test]
fn frame_1_over_text(rt: HostRuntime) -> Result<(), Fail> {
    const NARROW: &[u8] = b"\
        +---+\
        |a  |\
        |bb |\
        |ccc|\
        +---+";
    const BETWEEN: &[u8] = b"\
        +-----+\
        |a bb |\
        |ccc  |\
        +-----+";
    const WIDE: &[u8] = b"\
        +----------+\
        |a bb ccc  |\
        +----------+";
    check_each(
        &rt,
        Kind::Text,
        Pile::Frame(1),
        &[
            case(b"a bb ccc", 5, 10, 5, NARROW),
            case(b"a bb ccc", 5, 10, 7, BETWEEN),
            case(b"a bb ccc", 5, 10, 12, WIDE),
            case(b"", 3, 3, 3, b"+-+| |+-+"),
        ],
    )
}

#[test]
fn frame_1_over_block(rt: HostRuntime) -> Result<(), Fail> {
    const NARROW: &[u8] = b"\
        +---+\
        |a  |\
        | bb|\
        |   |\
        |c  |\
        +---+";
    const WIDE: &[u8] = b"\
        +-----+\
        |a    |\
        | bb  |\
        |     |\
        |c    |\
        +-----+";
    check_each(
        &rt,
        Kind::Block,
        Pile::Frame(1),
        &[
            case(b"a\n bb\n\nc", 5, 5, 5, NARROW),
            case(b"a\n bb\n\nc", 5, 5, 7, WIDE),
            case(b"\n", 3, 3, 3, b"+-+| || |+-+"),
        ],
    )
}
