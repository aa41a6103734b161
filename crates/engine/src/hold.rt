// A sheet.
ghost use Rattle.runs.specs.Calls.{Reached};
ghost use Rattle.runs.specs.State.{state_of};

use list::List;
use plan::{Cell, Table};

/// The tables and cells of a sheet, and whether it is laid. Every sheet is one that a run of calls reached.
#[derive(Drop)]
pub struct Sheet<'t, 'c> {
    pub(crate) tables: List<'t, Table>,
    pub(crate) cells: List<'c, Cell>,
    pub(crate) laid: bool,
    ghost reached: { ∥ Reached (state_of tables cells laid) ∥₁ },
}
