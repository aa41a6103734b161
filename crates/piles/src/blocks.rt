// Blocks with nothing around them.
use crate::files::*;
use crate::pages::*;
use crate::pile::*;
use letters::Kind;
use std::test::Fail;

#[test]
fn one_line_or_none(rt: HostRuntime) -> Result<(), Fail> {
    check_each(
        &rt,
        Kind::Block,
        Pile::Bare,
        &[
            case(b"", 1, 1, 1, b" "),
            case(b"", 1, 1, 3, b"   "),
            case(b"abc", 3, 3, 2, b""),
            case(b"abc", 3, 3, 3, b"abc"),
            case(b"abc", 3, 3, 4, b"abc "),
            case(b"abc", 3, 3, 9, b"abc      "),
            case(b"abc", 3, 3, 2001, b""),
            case(b"x", 1, 1, 1, b"x"),
            case(b"x", 1, 1, 2, b"x "),
            case(b"two words", 9, 9, 9, b"two words"),
            case(b"two words", 9, 9, 12, b"two words   "),
        ],
    )
}

#[test]
fn newlines_part_lines(rt: HostRuntime) -> Result<(), Fail> {
    check_each(
        &rt,
        Kind::Block,
        Pile::Bare,
        &[
            case(b"\n", 1, 1, 1, b"  "),
            case(b"\n", 1, 1, 2, b"    "),
            case(b"\n\n\n", 1, 1, 1, b"    "),
            case(b"\n\n\n", 1, 1, 3, b"            "),
            case(b"a\nbb\nccc", 3, 3, 3, b"a  bb ccc"),
            case(b"a\nbb\nccc", 3, 3, 5, b"a    bb   ccc  "),
            case(b"ccc\n\na", 3, 3, 3, b"ccc   a  "),
            case(b"ccc\n\na", 3, 3, 4, b"ccc     a   "),
        ],
    )
}

#[test]
fn empty_lines_at_the_ends(rt: HostRuntime) -> Result<(), Fail> {
    check_each(
        &rt,
        Kind::Block,
        Pile::Bare,
        &[
            case(b"\nab", 2, 2, 2, b"  ab"),
            case(b"\nab", 2, 2, 3, b"   ab "),
            case(b"ab\n", 2, 2, 2, b"ab  "),
            case(b"ab\n", 2, 2, 3, b"ab    "),
            case(b"\n\nab\n\nc\n\n", 2, 2, 2, b"    ab  c     "),
            case(b"\n\nab\n\nc\n\n", 2, 2, 4, b"        ab      c           "),
        ],
    )
}

#[test]
fn blanks_are_kept(rt: HostRuntime) -> Result<(), Fail> {
    check_each(
        &rt,
        Kind::Block,
        Pile::Bare,
        &[
            case(b" ", 1, 1, 1, b" "),
            case(b" ", 1, 1, 2, b"  "),
            case(b"  a   b ", 8, 8, 8, b"  a   b "),
            case(b"  a   b ", 8, 8, 9, b"  a   b  "),
            case(b"  \n a\n    \na", 4, 4, 4, b"     a      a   "),
            case(b"  \n a\n    \na", 4, 4, 5, b"      a        a    "),
        ],
    )
}

#[test]
fn references_and_plain_characters(rt: HostRuntime) -> Result<(), Fail> {
    check_each(
        &rt,
        Kind::Block,
        Pile::Bare,
        &[
            case(b"&lt;b&gt;\n&amp;&quot;", 3, 3, 3, b"<b>&\" "),
            case(b"&lt;b&gt;\n&amp;&quot;", 3, 3, 4, b"<b> &\"  "),
            case(b"&amp;lt;\n &amp; ", 4, 4, 4, b"&lt; &  "),
            case(b"&lt;\n&gt;\n&amp;\n&quot;", 1, 1, 1, b"<>&\""),
            case(b"&lt;\n&gt;\n&amp;\n&quot;", 1, 1, 2, b"< > & \" "),
            case(
                b"a > \"b\" = /c;\n#'~!",
                13,
                13,
                13,
                b"a > \"b\" = /c;#'~!         ",
            ),
            case(
                b"a > \"b\" = /c;\n#'~!",
                13,
                13,
                15,
                b"a > \"b\" = /c;  #'~!           ",
            ),
        ],
    )
}

#[test]
fn wide_lines(rt: HostRuntime) -> Result<(), Fail> {
    check_each(
        &rt,
        Kind::Block,
        Pile::Bare,
        &[
            case(&[b'y'; 2000], 2000, 2000, 2000, &[b'y'; 2000]),
            case(&[b'y'; 2000], 2000, 2000, 1999, b""),
            case(&[b'y'; 2000], 2000, 2000, 2001, b""),
            case(&[b' '; 2001], 2001, 2001, 2001, b""),
            case(b"\n", 1, 1, 2000, &[b' '; 4000]),
        ],
    )
}

#[test]
fn stretches_of_a_file(rt: HostRuntime) -> Result<(), Fail> {
    check_file(
        &rt,
        Base::Only(Kind::Block),
        Pile::Bare,
        b"\t ab\n\nc \r",
        &[(1, 8), (3, 7), (8, 8), (3, 4), (0, 8), (1, 9)],
        &[
            content(0, 3, 3, 3, b" ab   c  "),
            content(0, 3, 3, 5, b" ab       c    "),
            content(1, 1, 1, 1, b"b c"),
            content(1, 1, 1, 2, b"b   c "),
            content(2, 1, 1, 1, b" "),
            content(3, 1, 1, 1, b"b"),
        ],
    )
}
