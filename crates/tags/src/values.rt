// What tags say, with the defaults of their attributes.
use crate::reading::{check, data, head, table};
use fault::Reason::*;
use markup::{Name, Tag};

#[test]
fn names(rt: HostRuntime) {
    check(
        &rt,
        false,
        &[
            (b"col>", Ok(Tag::Column(0))),
            (b"tr>", Ok(Tag::Row)),
            (b"td>", Ok(data(1, 1))),
            (b"th>", Ok(head(1, 1))),
            (b"pre>", Ok(Tag::Block)),
            (b"/table>", Ok(Tag::End(Name::Table))),
            (b"/col>", Ok(Tag::End(Name::Column))),
            (b"/tr>", Ok(Tag::End(Name::Row))),
            (b"/td>", Ok(Tag::End(Name::Data))),
            (b"/th>", Ok(Tag::End(Name::Head))),
            (b"/pre>", Ok(Tag::End(Name::Block))),
            (b"TD>", Ok(data(1, 1))),
            (b"tH >", Ok(head(1, 1))),
            (b"tdx>", Err(Malformed)),
            (b"ta>", Err(Malformed)),
            (b">", Err(Malformed)),
            (b"/>", Err(Malformed)),
        ],
    );
}

#[test]
fn tables(rt: HostRuntime) {
    check(
        &rt,
        true,
        &[
            (b"table cols=2>", Ok(table(2, 1, 80, 0, 0))),
            (b"table cols=2 width=8>", Ok(table(2, 1, 8, 0, 0))),
            (
                b"TABLE BORDER=1 cellpadding=2\nCOLS=\"3\" Cellspacing=0 >",
                Ok(table(3, 0, 80, 2, 1)),
            ),
            (b"table>", Err(Malformed)),
            (b"table width=8>", Err(Malformed)),
            (b"table cols=2 colspan=1>", Err(Malformed)),
        ],
    );
    check(
        &rt,
        false,
        &[
            (b"table cols=2 cellspacing=3>", Ok(table(2, 3, 80, 0, 0))),
            (b"table cols=2 width=8>", Err(Malformed)),
            (b"table cols=2 cellpadding=0>", Err(Malformed)),
            (b"table cols=2 border=0>", Err(Malformed)),
        ],
    );
}

#[test]
fn cells(rt: HostRuntime) {
    check(
        &rt,
        false,
        &[
            (b"TD colspan=\"3\">", Ok(data(3, 1))),
            (b"td rowspan=2 colspan=4>", Ok(data(4, 2))),
            (b"th\trowspan=99999>", Ok(head(1, 99999))),
            (b"td width=1>", Err(Malformed)),
            (b"col width=00002>", Ok(Tag::Column(2))),
            (b"col width=0>", Ok(Tag::Column(0))),
            (b"col cols=1>", Err(Malformed)),
            (b"tr width=1>", Err(Malformed)),
            (b"pre width=1>", Err(Malformed)),
        ],
    );
}
