// The columns of a table.
ghost use Rattle.std.specs.Prelude.{◌≡◌};
ghost use Rattle.columns.specs.Columns.{overflow_of};
ghost use Rattle.columns.specs.Laws.{Lawful, Offered};
ghost use Rattle.measure.specs.Asks.{own_columns, measured, wants_of};
ghost use Rattle.measure.specs.Widths.{offered_to};

use crate::ask::Ask;
use crate::pass::Asking;
use crate::width::give;
use plan::{Cell, Table};

/// Measures the columns of a table: their least and greatest widths become what its cells ask. The table is number t of its sheet, and
/// what a cell asks stands at the cell's number; a cell without an ask asks nothing.
pub fn measure_columns(table: &mut Table, t: usize, cells: &[Cell], asks: &[Ask])
    ensures value { table.new ≡ measured table.old (wants_of t table.old cells.now asks.now) }
    ensures lawful { Lawful table.old.spacing
        (own_columns table.old)
        (wants_of t table.old cells.now asks.now) }
{
    let n = (table.count as usize).min(32);
    let asking = Asking {
        table: t,
        cells,
        asks,
    };
    asking.measure(table.spacing, &mut table.columns[0..n]);
}

/// Offers a table a width, the spacings around its columns counted in: the columns get their widths, and the answer is by how much the
/// offer falls short of the table's least width.
pub fn offer(table: &mut Table, width: u32) -> u32
    ensures value { table.new ≡ offered_to table.old width }
    ensures overflow { result ≡ overflow_of table.old.spacing (own_columns table.old) width }
    ensures lawful { Offered table.old.spacing (own_columns table.old) width }
{
    let n = (table.count as usize).min(32);
    give(table.spacing, width, &mut table.columns[0..n])
}
