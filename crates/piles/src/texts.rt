// Texts with nothing around them.
use crate::files::*;
use crate::pages::*;
use crate::pile::*;
use letters::Kind;
use std::test::Fail;

#[test]
fn words_fill_lines(rt: HostRuntime) -> Result<(), Fail> {
    check_each(
        &rt,
        Kind::Text,
        Pile::Bare,
        &[
            case(b"a bb ccc", 3, 8, 2, b""),
            case(b"a bb ccc", 3, 8, 3, b"a  bb ccc"),
            case(b"a bb ccc", 3, 8, 4, b"a bbccc "),
            case(b"a bb ccc", 3, 8, 5, b"a bb ccc  "),
            case(b"a bb ccc", 3, 8, 7, b"a bb   ccc    "),
            case(b"a bb ccc", 3, 8, 8, b"a bb ccc"),
            case(b"a bb ccc", 3, 8, 10, b"a bb ccc  "),
            case(b"a bb ccc", 3, 8, 2001, b""),
            case(b"one", 3, 3, 3, b"one"),
            case(b"one", 3, 3, 4, b"one "),
            case(b"a b c d e", 1, 9, 1, b"abcde"),
            case(b"a b c d e", 1, 9, 2, b"a b c d e "),
            case(b"a b c d e", 1, 9, 3, b"a bc de  "),
            case(b"a b c d e", 1, 9, 8, b"a b c d e       "),
            case(b"a b c d e", 1, 9, 9, b"a b c d e"),
            case(b"to be or not to be", 3, 18, 3, b"to be or notto be "),
            case(b"to be or not to be", 3, 18, 5, b"to beor   not  to be"),
            case(b"to be or not to be", 3, 18, 8, b"to be ornot to  be      "),
            case(b"to be or not to be", 3, 18, 9, b"to be or not to be"),
            case(b"to be or not to be", 3, 18, 18, b"to be or not to be"),
        ],
    )
}

// Words exactly as wide as the line, and lines with one place too few for the next word.
#[test]
fn exact_lines(rt: HostRuntime) -> Result<(), Fail> {
    check_each(
        &rt,
        Kind::Text,
        Pile::Bare,
        &[
            case(b"abc def", 3, 7, 3, b"abcdef"),
            case(b"abcd ef g hijk", 4, 14, 4, b"abcdef ghijk"),
            case(b"abcd ef g hijk", 4, 14, 9, b"abcd ef ghijk     "),
            case(b"ab cd ef gh", 2, 11, 5, b"ab cdef gh"),
            case(b"ab cde", 3, 6, 5, b"ab   cde  "),
            case(b"ab cde", 3, 6, 6, b"ab cde"),
            case(b"abc def ghi", 3, 11, 6, b"abc   def   ghi   "),
            case(b"abc def ghi", 3, 11, 7, b"abc defghi    "),
            case(b"abc def ghi", 3, 11, 10, b"abc def   ghi       "),
            case(b"abc def ghi", 3, 11, 11, b"abc def ghi"),
            case(b"a b c", 1, 5, 4, b"a b c   "),
        ],
    )
}

#[test]
fn no_words(rt: HostRuntime) -> Result<(), Fail> {
    check_each(
        &rt,
        Kind::Text,
        Pile::Bare,
        &[
            case(b"", 1, 1, 1, b" "),
            case(b"", 1, 1, 4, b"    "),
            case(b" ", 1, 1, 1, b" "),
            case(b" ", 1, 1, 2, b"  "),
            case(b"\n", 1, 1, 1, b" "),
            case(b"\n", 1, 1, 3, b"   "),
            case(b" \t \r\n\n\t  \r", 1, 1, 1, b" "),
            case(b" \t \r\n\n\t  \r", 1, 1, 5, b"     "),
        ],
    )
}

#[test]
fn references(rt: HostRuntime) -> Result<(), Fail> {
    check_each(
        &rt,
        Kind::Text,
        Pile::Bare,
        &[
            case(b"&lt;a&gt;", 3, 3, 3, b"<a>"),
            case(b"&lt;a&gt;", 3, 3, 4, b"<a> "),
            case(b"x&amp;y&lt;z &quot;q&quot;", 5, 9, 5, b"x&y<z\"q\"  "),
            case(
                b"x&amp;y&lt;z &quot;q&quot;",
                5,
                9,
                8,
                b"x&y<z   \"q\"     ",
            ),
            case(b"x&amp;y&lt;z &quot;q&quot;", 5, 9, 9, b"x&y<z \"q\""),
            case(
                b"&amp;lt; &amp;amp; &amp;&amp;",
                5,
                13,
                5,
                b"&lt; &amp;&&   ",
            ),
            case(
                b"&amp;lt; &amp;amp; &amp;&amp;",
                5,
                13,
                8,
                b"&lt;    &amp; &&",
            ),
            case(b"&amp;nbsp;&lt;", 7, 7, 7, b"&nbsp;<"),
            case(b"a &lt; b &gt; c", 1, 9, 1, b"a<b>c"),
            case(b"a &lt; b &gt; c", 1, 9, 3, b"a <b >c  "),
            case(b"a &lt; b &gt; c", 1, 9, 9, b"a < b > c"),
            case(b" &amp;\t&quot;\n&lt; &gt; ", 1, 7, 1, b"&\"<>"),
            case(b" &amp;\t&quot;\n&lt; &gt; ", 1, 7, 4, b"& \" < > "),
            case(b" &amp;\t&quot;\n&lt; &gt; ", 1, 7, 7, b"& \" < >"),
            case(b"&lt;", 1, 1, 1, b"<"),
            case(b"&lt;", 1, 1, 2, b"< "),
        ],
    )
}

#[test]
fn plain_characters(rt: HostRuntime) -> Result<(), Fail> {
    check_each(
        &rt,
        Kind::Text,
        Pile::Bare,
        &[
            case(b"> \" = / ; # ' ~ !", 1, 17, 1, b">\"=/;#'~!"),
            case(b"> \" = / ; # ' ~ !", 1, 17, 3, b"> \"= /; #' ~!  "),
            case(b"> \" = / ; # ' ~ !", 1, 17, 17, b"> \" = / ; # ' ~ !"),
            case(b"a>b=\"c\" /d;lt;", 7, 14, 7, b"a>b=\"c\"/d;lt; "),
            case(b"a>b=\"c\" /d;lt;", 7, 14, 8, b"a>b=\"c\" /d;lt;  "),
            case(b"a>b=\"c\" /d;lt;", 7, 14, 14, b"a>b=\"c\" /d;lt;"),
        ],
    )
}

#[test]
fn white_space_parts_words(rt: HostRuntime) -> Result<(), Fail> {
    check_each(
        &rt,
        Kind::Text,
        Pile::Bare,
        &[
            case(b"a\tb\nc\rd\r\ne", 1, 9, 1, b"abcde"),
            case(b"a\tb\nc\rd\r\ne", 1, 9, 3, b"a bc de  "),
            case(b"a\tb\nc\rd\r\ne", 1, 9, 9, b"a b c d e"),
            case(b"  \t\n aa        bb\n\n\r\t ccc  ", 3, 9, 3, b"aa bb ccc"),
            case(b"  \t\n aa        bb\n\n\r\t ccc  ", 3, 9, 5, b"aa bbccc  "),
            case(b"  \t\n aa        bb\n\n\r\t ccc  ", 3, 9, 9, b"aa bb ccc"),
            case(b"\raa", 2, 2, 2, b"aa"),
            case(b"\raa", 2, 2, 3, b"aa "),
            case(b"aa\n", 2, 2, 2, b"aa"),
        ],
    )
}

#[test]
fn wide_lines(rt: HostRuntime) -> Result<(), Fail> {
    check_each(
        &rt,
        Kind::Text,
        Pile::Bare,
        &[
            case(&[b'x'; 2000], 2000, 2000, 2000, &[b'x'; 2000]),
            case(&[b'x'; 2000], 2000, 2000, 1999, b""),
            case(&[b'x'; 2000], 2000, 2000, 2001, b""),
            case(&[b'x'; 2001], 2001, 2001, 2000, b""),
            case(&[b'x'; 2001], 2001, 2001, 2001, b""),
            case(b"\t\n", 1, 1, 2000, &[b' '; 2000]),
        ],
    )
}

// A line of 2000 for the long word and one for the short.
#[test]
fn a_word_after_one_of_2000(rt: HostRuntime) -> Result<(), Fail> {
    let mut file = [b'x'; 2002];
    file[2000] = b' ';
    let mut page = [b' '; 4000];
    page[0..2000].fill(b'x');
    page[2000] = b'x';
    check_each(
        &rt,
        Kind::Text,
        Pile::Bare,
        &[case(&file, 2000, 2002, 2000, &page)],
    )
}

#[test]
fn stretches_of_a_file(rt: HostRuntime) -> Result<(), Fail> {
    check_file(
        &rt,
        Base::Only(Kind::Text),
        Pile::Bare,
        b"<ba bb ccc>",
        &[(2, 10), (4, 8), (0, 0), (11, 11), (5, 6), (2, 10), (0, 11)],
        &[
            content(0, 3, 8, 3, b"a  bb ccc"),
            content(0, 3, 8, 4, b"a bbccc "),
            content(0, 3, 8, 8, b"a bb ccc"),
            content(1, 2, 4, 2, b"bbc "),
            content(1, 2, 4, 4, b"bb c"),
            content(2, 1, 1, 1, b" "),
            content(2, 1, 1, 2, b"  "),
            content(3, 1, 1, 1, b" "),
            content(4, 1, 1, 1, b"b"),
            content(4, 1, 1, 3, b"b  "),
            content(5, 3, 8, 4, b"a bbccc "),
        ],
    )
}
