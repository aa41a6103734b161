// What a sheet should hold, as a test writes it and as a sheet tells it.
use plan::{Cell, Column, Holds, ROWS, Rect, Sizing, Table};

// TableSeen, CellSeen and Fixed are tuples, since tests write tables of them by hand.

// A table as a test writes it: its columns, its spacing, the rows begun, and the rows begun or reached by a cell.
pub(crate) type TableSeen = (u8, u8, u8, u8);

// A cell as a test writes it: its table, row and column, its columns across and rows down, and what it holds.
pub(crate) type CellSeen = (usize, u8, u8, u8, u8, Holds);

// A column that is fixed: its table, its number and its width.
pub(crate) type Fixed = (usize, usize, u16);

// A table with its columns and the heights of its rows. Its record of taken columns is not for callers to see.
#[derive(Clone, Copy, PartialEq, Debug)]
pub(crate) struct TableParts {
    seen: TableSeen,
    columns: [Column; 32],
    heights: [u16; ROWS],
}

pub(crate) fn parts_of(table: Table) -> TableParts {
    let columns = table.columns;
    let heights = table.heights;
    TableParts {
        seen: (table.count, table.spacing, table.begun, table.reached),
        columns,
        heights,
    }
}

// Table t of those listed, if there is one. Its columns have no measures and its rows no heights.
pub(crate) fn expected_table(
    tables: &[TableSeen],
    fixed: &[Fixed],
    t: usize,
) -> Option<TableParts> {
    let seen = tables.get(t)?;
    Some(TableParts {
        seen: *seen,
        columns: expected_columns(fixed, t),
        heights: [0; ROWS],
    })
}

fn expected_columns(fixed: &[Fixed], table: usize) -> [Column; 32] {
    let free = Column {
        sizing: Sizing::Free,
        least: 0,
        greatest: 0,
        width: 0,
    };
    let mut columns = [free; 32];
    for (t, j, width) in fixed {
        if *t == table && *j < 32 {
            columns[*j].sizing = Sizing::Fixed(*width);
        }
    }
    columns
}

// Cell i of those listed, if there is one. It has no place on the page.
pub(crate) fn expected_cell(cells: &[CellSeen], i: usize) -> Option<Cell> {
    let (table, row, column, across, down, holds) = *cells.get(i)?;
    Some(Cell {
        table,
        row,
        column,
        across,
        down,
        holds,
        rect: Rect::none(),
    })
}
