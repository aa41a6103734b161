// Several layers over texts or blocks. A blank that begins a line of a page is written \x20, since a bare one would be skipped.
use crate::files::*;
use crate::pile::*;
use letters::Kind;
use std::test::Fail;

#[test]
fn frame_over_padding_over_text(rt: HostRuntime) -> Result<(), Fail> {
    const NARROW: &[u8] = b"\
        +-----+\
        |     |\
        | a   |\
        | bb  |\
        | ccc |\
        |     |\
        +-----+";
    const BETWEEN: &[u8] = b"\
        +------+\
        |      |\
        | a bb |\
        | ccc  |\
        |      |\
        +------+";
    const WIDE: &[u8] = b"\
        +------------+\
        |            |\
        | a bb ccc   |\
        |            |\
        +------------+";
    const EMPTY: &[u8] = b"\
        +----+\
        |    |\
        |    |\
        |    |\
        +----+";
    check_each(
        &rt,
        Kind::Text,
        Pile::FramePadding(1),
        &[
            case(b"a bb ccc", 7, 12, 7, NARROW),
            case(b"a bb ccc", 7, 12, 8, BETWEEN),
            case(b"a bb ccc", 7, 12, 14, WIDE),
            case(b"\n", 5, 5, 6, EMPTY),
        ],
    )
}

#[test]
fn frame_over_padding_2_over_text(rt: HostRuntime) -> Result<(), Fail> {
    const PAGE: &[u8] = b"\
        +----------+\
        |          |\
        |          |\
        |  <p> is  |\
        |  &co     |\
        |          |\
        |          |\
        +----------+";
    check_each(
        &rt,
        Kind::Text,
        Pile::FramePadding(2),
        &[case(b"&lt;p&gt; is &amp;co", 9, 16, 12, PAGE)],
    )
}

#[test]
fn padding_over_frame_over_block(rt: HostRuntime) -> Result<(), Fail> {
    const NARROW: &[u8] = b"\
        \x20      \
        \x20+---+ \
        \x20|   | \
        \x20|ab | \
        \x20|  c| \
        \x20|   | \
        \x20+---+ \
        \x20      ";
    const WIDE: &[u8] = b"\
        \x20        \
        \x20+-----+ \
        \x20|     | \
        \x20|ab   | \
        \x20|  c  | \
        \x20|     | \
        \x20+-----+ \
        \x20        ";
    const EMPTY: &[u8] = b"\
        \x20     \
        \x20+--+ \
        \x20|  | \
        \x20+--+ \
        \x20     ";
    check_each(
        &rt,
        Kind::Block,
        Pile::PaddingFrame(1),
        &[
            case(b"\nab\n  c\n", 7, 7, 7, NARROW),
            case(b"\nab\n  c\n", 7, 7, 9, WIDE),
            case(b"", 5, 5, 6, EMPTY),
        ],
    )
}

#[test]
fn two_paddings_and_two_frames_over_text(rt: HostRuntime) -> Result<(), Fail> {
    const NARROW: &[u8] = b"\
        \x20          \
        \x20+-------+ \
        \x20|       | \
        \x20| +---+ | \
        \x20| |a  | | \
        \x20| |bb | | \
        \x20| |ccc| | \
        \x20| +---+ | \
        \x20|       | \
        \x20+-------+ \
        \x20          ";
    const BETWEEN: &[u8] = b"\
        \x20           \
        \x20+--------+ \
        \x20|        | \
        \x20| +----+ | \
        \x20| |a bb| | \
        \x20| |ccc | | \
        \x20| +----+ | \
        \x20|        | \
        \x20+--------+ \
        \x20           ";
    const WIDE: &[u8] = b"\
        \x20               \
        \x20+------------+ \
        \x20|            | \
        \x20| +--------+ | \
        \x20| |a bb ccc| | \
        \x20| +--------+ | \
        \x20|            | \
        \x20+------------+ \
        \x20               ";
    check_each(
        &rt,
        Kind::Text,
        Pile::PaddingFramePaddingFrame,
        &[
            case(b"a bb ccc", 11, 16, 11, NARROW),
            case(b"a bb ccc", 11, 16, 12, BETWEEN),
            case(b"a bb ccc", 11, 16, 16, WIDE),
        ],
    )
}

#[test]
fn two_paddings_and_two_frames_over_block(rt: HostRuntime) -> Result<(), Fail> {
    const NARROW: &[u8] = b"\
        \x20         \
        \x20+------+ \
        \x20|      | \
        \x20| +--+ | \
        \x20| | x| | \
        \x20| |  | | \
        \x20| |\" | | \
        \x20| |  | | \
        \x20| +--+ | \
        \x20|      | \
        \x20+------+ \
        \x20         ";
    const WIDE: &[u8] = b"\
        \x20            \
        \x20+---------+ \
        \x20|         | \
        \x20| +-----+ | \
        \x20| | x   | | \
        \x20| |     | | \
        \x20| |\"    | | \
        \x20| |     | | \
        \x20| +-----+ | \
        \x20|         | \
        \x20+---------+ \
        \x20            ";
    check_each(
        &rt,
        Kind::Block,
        Pile::PaddingFramePaddingFrame,
        &[
            case(b" x\n\n&quot;\n", 10, 10, 10, NARROW),
            case(b" x\n\n&quot;\n", 10, 10, 13, WIDE),
        ],
    )
}
