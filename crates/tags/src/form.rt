// What has the form of a tag.
use crate::reading::{check, check_sizes, data};
use fault::Reason::*;
use markup::{Name, Tag};

#[test]
fn white_space(rt: HostRuntime) {
    check(
        &rt,
        false,
        &[
            (b"/td >", Ok(Tag::End(Name::Data))),
            (b"td\r\n\t >", Ok(data(1, 1))),
            (b"td  colspan=2  rowspan=3 >", Ok(data(2, 3))),
            (b" td>", Err(Malformed)),
            (b"/ td>", Err(Malformed)),
            (b"td colspan=1rowspan=1>", Err(Malformed)),
            (b"td colspan=\"1\"rowspan=1>", Err(Malformed)),
            (b"td colspan = 1>", Err(Malformed)),
            (b"td colspan= 1>", Err(Malformed)),
        ],
    );
}

#[test]
fn attributes(rt: HostRuntime) {
    check(
        &rt,
        false,
        &[
            (b"td/>", Err(Malformed)),
            (b"/td colspan=1>", Err(Malformed)),
            (b"table cols=2 COLS=3>", Err(Malformed)),
            (b"td colspan>", Err(Malformed)),
            (b"td colspan=>", Err(Malformed)),
            (b"td colspan=\"\">", Err(Malformed)),
            (b"td colspan=\"1>", Err(Malformed)),
            (b"td colspan='1'>", Err(Malformed)),
            (b"td colspan=000001>", Err(Malformed)),
            (b"td colspan=\"000001\">", Err(Malformed)),
            (b"td colspan=-1>", Err(Malformed)),
            (b"td span=1>", Err(Malformed)),
        ],
    );
}

// A byte that is not allowed comes before a tag that is cut off or has another form, and nothing past the ">" counts.
#[test]
fn ends(rt: HostRuntime) {
    check(
        &rt,
        false,
        &[
            (b"td", Err(Malformed)),
            (b"td ", Err(Malformed)),
            (b"", Err(Malformed)),
            (b"td\x07>", Err(ByteNotAllowed)),
            (b"t\x07", Err(ByteNotAllowed)),
            (b"a \x80 b>", Err(ByteNotAllowed)),
            (b"td>\x07", Ok(data(1, 1))),
            (b"a<b>", Err(Malformed)),
        ],
    );
    check_sizes(
        &rt,
        &[
            (b"td>", Some(2)),
            (b"td >>", Some(3)),
            (b"/table> and more>", Some(6)),
            (b"td", None),
        ],
    );
}
