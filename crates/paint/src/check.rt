// Every cell is looked at before anything is written.
ghost use Rattle.std.specs.Prelude.{◌≡◌, ℕ, Ok};
ghost use Rattle.std.specs.declared.option.Option as option;
ghost use Rattle.fault.specs.declared.Fault as faults;
ghost use Rattle.plan.specs.declared.record.Cell as records;
ghost use Rattle.laid.specs.Layout.{unless, first_fault, missing, misfit_box, off_shelf, unfit};
ghost use Rattle.paint.specs.Checks.{Finds};

use fault::Fault;
use plan::{Cell, Holds};
use shelf::Shelf;

// The first fault of all cells, in the order of their numbers.
pub(crate) fn check_all<F: Fn(usize, &Cell) -> Result<(), Fault>>(
    cells: &[Cell],
    check: F,
) -> Result<(), Fault>
    requires { F.IsAlwaysCallable check }
    ensures { (wrong : ℕ → records.Cell → option.Option faults.Fault)
        → Finds F.Fn check wrong
        → result ≡ unless (first_fault wrong 0 cells.now) (Ok tt) }
{
    for (i, cell) in cells.iter().enumerate() {
        check(i, cell)?;
    }
    Ok(())
}

// The content of cell i, if it has one, is on the shelf.
pub(crate) fn check_on_shelf<S: Shelf>(shelf: &S, i: usize, cell: &Cell) -> Result<(), Fault>
    ensures { result ≡ unless (off_shelf (S.Shelf.meaning shelf.now) i cell.now.holds) (Ok tt) }
{
    if let Holds::Content(k) = cell.holds {
        shelf.widths(k).map_err(|f| Fault::at(f.reason, i))?;
    }
    Ok(())
}

// The content of cell i, if it has one, can be set at the width of its box. Like the one above but for the query: another answer, another
// argument and another fact, for each of which a common function would take a parameter.
pub(crate) fn check_fits_box<S: Shelf>(shelf: &S, i: usize, cell: &Cell) -> Result<(), Fault>
    ensures { result ≡ unless (unfit (S.Shelf.meaning shelf.now) cell.now.rect.width i cell.now.holds) (Ok tt) }
{
    if let Holds::Content(k) = cell.holds {
        shelf
            .height(k, cell.rect.width)
            .map_err(|f| Fault::at(f.reason, i))?;
    }
    Ok(())
}

// Every content is on the shelf.
pub(crate) fn check_shelf<S: Shelf>(shelf: &S, cells: &[Cell]) -> Result<(), Fault>
    ensures { result ≡ unless (missing (S.Shelf.meaning shelf.now) cells.now) (Ok tt) }
{
    check_all(cells, |i, cell| check_on_shelf(shelf, i, cell))
}

// Every content can be set at the width of its box.
pub(crate) fn check_boxes<S: Shelf>(shelf: &S, cells: &[Cell]) -> Result<(), Fault>
    ensures { result ≡ unless (misfit_box (S.Shelf.meaning shelf.now) cells.now) (Ok tt) }
{
    check_all(cells, |i, cell| check_fits_box(shelf, i, cell))
}
