// The records of a sheet.
ghost use Rattle.std.specs.Prelude.{◌≡◌};
ghost use Rattle.plan.specs.Blank.{blank_column, blank_table, blank_cell, no_rect};
ghost use Rattle.plan.specs.Steps.{sizing_of};

use crate::taken::Taken;

/// The most columns of a table.
pub const COLUMNS: usize = 32;

/// The most rows of a table.
pub const ROWS: usize = 64;

/// The two ways in which a table is parted: into columns, and into rows.
#[derive(Clone, Copy, PartialEq, Eq, Debug)]
pub enum Axis {
    Columns,
    Rows,
}

/// How a column comes to its width: by its contents, or fixed at a width. An enum, as these are the words of the rules and of the
/// definitions, which an `Option` would not say.
#[derive(Clone, Copy, PartialEq, Eq, Debug)]
pub enum Sizing {
    Free,
    Fixed(u16),
}

/// A column of a table: how it is sized, its least and greatest width, and the width that a layout gave it.
#[derive(Clone, Copy, PartialEq, Eq, Debug)]
pub struct Column {
    pub sizing: Sizing,
    pub least: u16,
    pub greatest: u16,
    pub width: u16,
}

/// A table: its first `count` columns are used. `begun` rows were begun, and `reached` were begun or reached by a cell.
// The columns stand in an array with their number beside, and so do heights and taken columns: there is no heap, and by a rule of the
// project a table keeps its own.
#[derive(Clone, Copy, PartialEq, Eq, Debug)]
pub struct Table {
    pub columns: [Column; COLUMNS],
    pub count: u8,
    pub spacing: u8,
    pub begun: u8,
    pub reached: u8,
    pub heights: [u16; ROWS],
    pub taken: Taken,
}

/// What a cell holds: the content of that number, or the table of that number.
#[derive(Clone, Copy, PartialEq, Eq, Debug)]
pub enum Holds {
    Content(u16),
    Inner(usize),
}

/// A place on the page.
#[derive(Clone, Copy, PartialEq, Eq, Debug)]
pub struct Rect {
    pub left: u16,
    pub top: u16,
    pub width: u16,
    pub height: u16,
}

/// A cell: it takes `across` columns from `column` on in `down` rows from `row` on.
#[derive(Clone, Copy, PartialEq, Eq, Debug)]
pub struct Cell {
    pub table: usize,
    pub row: u8,
    pub column: u8,
    pub across: u8,
    pub down: u8,
    pub holds: Holds,
    pub rect: Rect,
}

impl From<u16> for Sizing {
    ghost from_gives = { λ width sizing. sizing ≡ sizing_of width };

    /// Fixed at the width, or free at 0: by the rules the call that fixes a width frees the column with it.
    fn from(width: u16) -> Sizing {
        if width == 0 {
            Sizing::Free
        } else {
            Sizing::Fixed(width)
        }
    }
}

impl Rect {
    /// No place: all measures are 0.
    pub fn none() -> Rect
        ensures { result ≡ no_rect }
    {
        Rect {
            left: 0,
            top: 0,
            width: 0,
            height: 0,
        }
    }
}

impl Table {
    /// A table of `count` free columns without rows.
    pub fn new(count: u8, spacing: u8) -> Table
        ensures { result ≡ blank_table count spacing }
    {
        let column = Column {
            sizing: Sizing::Free,
            least: 0,
            greatest: 0,
            width: 0,
        };
        Table {
            columns: [column; COLUMNS],
            count,
            spacing,
            begun: 0,
            reached: 0,
            heights: [0; ROWS],
            taken: Taken::new(),
        }
    }
}

impl Cell {
    /// A cell to fill lent places with.
    pub fn blank() -> Cell
        ensures { result ≡ blank_cell }
    {
        Cell {
            table: 0,
            row: 0,
            column: 0,
            across: 0,
            down: 0,
            holds: Holds::Content(0),
            rect: Rect::none(),
        }
    }
}
