// The calls that build a sheet, over its two lists.
ghost use Rattle.std.specs.Prelude.{◌≡◌, ◌+◌, ◌<◌, ◌≤◌, if◌then◌else◌, Ok, Err};
ghost use Rattle.fault.specs.Numbers.{fault};
ghost use Rattle.fault.specs.declared.Reason.TheVariants.{OutOfRange, Full};
ghost use Rattle.plan.specs.Blank.{blank_table};
ghost use Rattle.plan.specs.Stock.{held, full};
ghost use Rattle.plan.specs.Steps.{table_range, current_row, column_for, start_tables, row_tables, width_tables, place_lists, nest_lists, new_cell, with_cell};
ghost use Rattle.plan.specs.Done.{Changed, Placed, by_record};

use crate::record::{COLUMNS, Cell, Holds, ROWS, Rect, Sizing, Table};
use crate::span::Span;
use fault::{Fault, Reason};
use list::List;

/// The most tables of a sheet.
const MOST_TABLES: usize = 64;

/// The most cells of a sheet.
const MOST_CELLS: usize = 1024;

/// The widest spacing of a table.
const MOST_SPACING: u8 = 8;

/// The greatest width at which a column is fixed.
const MOST_WIDTH: u16 = 1000;

// Declines where every place is used or the limit is reached.
fn spare_place<T: Copy>(list: &List<T>, limit: usize) -> Result<(), Fault>
    ensures { result ≡ (if full limit (held list.now) then Err (fault Full 0) else Ok tt) }
{
    if list.len() >= list.capacity() || list.len() >= limit {
        return Err(Fault::new(Reason::Full));
    }
    Ok(())
}

// Declines a table of other than 1 to 32 columns or of a spacing past 8. The two numbers go one way only, into the table, and so have no struct
// of their own. The table is made only where nothing else declines, since it is large.
fn check_table(count: u8, spacing: u8) -> Result<(), Fault>
    ensures { result ≡ (if table_range count spacing then Ok tt else Err (fault OutOfRange 0)) }
{
    if count < 1 || count as usize > COLUMNS || spacing > MOST_SPACING {
        return Err(Fault::new(Reason::OutOfRange));
    }
    Ok(())
}

/// Makes table 0 of an empty sheet, with 1 to 32 columns and a spacing from 0 to 8.
pub fn start_table(tables: &mut List<Table>, count: u8, spacing: u8) -> Result<(), Fault>
    ensures { Changed (start_tables (held tables.old) count spacing) tables.old tables.new result }
{
    check_table(count, spacing)?;
    if !tables.is_empty() {
        return Err(Fault::new(Reason::AlreadyStarted));
    }
    spare_place(tables, MOST_TABLES)?;
    tables.push(Table::new(count, spacing))?;
    Ok(())
}

/// Begins the next row of table t.
pub fn begin_row(tables: &mut List<Table>, t: usize) -> Result<(), Fault>
    ensures { Changed (row_tables (held tables.old) t) tables.old tables.new result }
{
    let Some(mut table) = tables.get(t) else {
        return Err(Fault::new(Reason::NotFound));
    };
    if table.begun as usize >= ROWS {
        return Err(Fault::new(Reason::PastLastRow));
    }
    table.begun += 1;
    table.reached = table.reached.max(table.begun);
    let _ = tables.set(t, table);
    Ok(())
}

/// Fixes column j of table t at a width from 1 to 1,000, or frees it at 0.
pub fn fix_width(tables: &mut List<Table>, t: usize, j: usize, width: u16) -> Result<(), Fault>
    ensures { Changed (width_tables (held tables.old) t j width) tables.old tables.new result }
{
    if width > MOST_WIDTH {
        return Err(Fault::new(Reason::OutOfRange));
    }
    let Some(mut table) = tables.get(t) else {
        return Err(Fault::new(Reason::NotFound));
    };
    if j >= COLUMNS || j >= table.count as usize {
        return Err(Fault::new(Reason::NotFound));
    }
    table.columns[j].sizing = Sizing::from(width);
    let _ = tables.set(t, table);
    Ok(())
}

// The column at which a cell goes into the table's current row.
fn find_column(table: &Table, span: Span) -> Result<u8, Fault>
    ensures { result ≡ column_for (by_record 0 table.now) table.now span.across span.down }
{
    if table.begun == 0 {
        return Err(Fault::new(Reason::NoRow));
    }
    let row = table.begun - 1;
    let count = table.count.min(COLUMNS as u8);
    let spot = table.taken.spot(row, count, span);
    let j = spot.ok_or(Fault::new(Reason::NoFreeColumns))?;
    if row as usize + span.down as usize > ROWS {
        return Err(Fault::new(Reason::PastLastRow));
    }
    Ok(j)
}

// The cell that stands in the table's current row. Its column and span stay apart up to here, where the cell has them as fields.
fn stand(t: usize, table: &Table, j: u8, span: Span, holds: Holds) -> Cell
    requires { 0 < table.now.begun }
    ensures { result ≡ new_cell t table.now j span.across span.down holds }
{
    Cell {
        table: t,
        row: table.begun - 1,
        column: j,
        across: span.across,
        down: span.down,
        holds,
        rect: Rect::none(),
    }
}

// Takes the columns of a cell that stands in the table's current row.
fn take_columns(table: &mut Table, j: u8, span: Span)
    requires begun { 0 < table.old.begun }
    requires low { current_row table.old + span.down ≤ 64 }
    requires within { j + span.across ≤ 32 }
    ensures { table.new ≡ with_cell table.old j span.across span.down }
{
    let end = table.begun - 1 + span.down;
    table.reached = table.reached.max(end);
    table.taken.take(j, span, end);
}

/// Places a content at the lowest free column of table t's current row, and returns the cell's number.
pub fn place_content(
    tables: &mut List<Table>,
    cells: &mut List<Cell>,
    t: usize,
    content: u16,
    across: u8,
    down: u8,
) -> Result<usize, Fault>
    ensures { Placed (place_lists by_record (held tables.old) (held cells.old) t across down content) tables.old tables.new cells.old cells.new result }
{
    let span = Span::new(across, down)?;
    let Some(mut table) = tables.get(t) else {
        return Err(Fault::new(Reason::NotFound));
    };
    let j = find_column(&table, span)?;
    spare_place(cells, MOST_CELLS)?;
    let i = cells.push(stand(t, &table, j, span, Holds::Content(content)))?;
    take_columns(&mut table, j, span);
    let _ = tables.set(t, table);
    Ok(i)
}

/// Adds a cell that holds a new table of its own columns and spacing, and returns the new table's number.
pub fn nest_table(
    tables: &mut List<Table>,
    cells: &mut List<Cell>,
    t: usize,
    across: u8,
    down: u8,
    count: u8,
    spacing: u8,
) -> Result<usize, Fault>
    ensures { Placed (nest_lists by_record (held tables.old) (held cells.old) t across down count spacing) tables.old tables.new cells.old cells.new result }
{
    let span = Span::new(across, down)?;
    check_table(count, spacing)?;
    let Some(mut table) = tables.get(t) else {
        return Err(Fault::new(Reason::NotFound));
    };
    let j = find_column(&table, span)?;
    spare_place(cells, MOST_CELLS)?;
    spare_place(tables, MOST_TABLES)?;
    let inner = tables.len();
    let cell = stand(t, &table, j, span, Holds::Inner(inner));
    take_columns(&mut table, j, span);
    let _ = tables.set(t, table);
    cells.push(cell)?;
    tables.push(Table::new(count, spacing))?;
    Ok(inner)
}
