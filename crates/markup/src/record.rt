// What a tag says.

/// The names of tags: TABLE, COL, TR, TD, TH and PRE.
#[derive(Clone, Copy, PartialEq, Eq, Debug)]
pub enum Name {
    Table,
    Column,
    Row,
    Data,
    Head,
    Block,
}

/// The names of attributes, in the order of their values.
#[derive(Clone, Copy, PartialEq, Eq, Debug)]
pub enum Attribute {
    Cols,
    Cellspacing,
    Width,
    Cellpadding,
    Border,
    Colspan,
    Rowspan,
}

/// What a TABLE tag says. Only that of the outermost table tells a width, padding and a border; another has their defaults, as the rules
/// have numbers there.
#[derive(Clone, Copy, PartialEq, Eq, Debug)]
pub struct TableTag {
    pub cols: u32,
    pub spacing: u32,
    pub width: u32,
    pub padding: u32,
    pub border: u32,
}

/// What a TD or TH tag says; `head` is told of a TH, which is like a TD in all else.
#[derive(Clone, Copy, PartialEq, Eq, Debug)]
pub struct CellTag {
    pub head: bool,
    pub across: u32,
    pub down: u32,
}

/// A tag, with its attributes or their defaults.
#[derive(Clone, Copy, PartialEq, Eq, Debug)]
pub enum Tag {
    Table(TableTag),
    Column(u32),
    Row,
    Cell(CellTag),
    Block,
    End(Name),
}
