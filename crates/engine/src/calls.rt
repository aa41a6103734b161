// The calls of a sheet.
ghost use Rattle.std.specs.Prelude.{◌≡◌, List as Sequence, length};
ghost use Rattle.std.specs.List.{slice_get};
ghost use Rattle.runs.specs.Calls.{Call, Start, Row, Place, Nest, Width, wanted};
ghost use Rattle.runs.specs.History.{Told};
ghost use Rattle.runs.specs.Laws.{Planned, RecordTied};
ghost use Rattle.runs.specs.State.{empty};
ghost use Rattle.engine.specs.View.{state, DidSo, DidNumber};

use crate::hold::Sheet;
use fault::Fault;
use list::List;
use plan::{Cell, Table, begin_row, fix_width, nest_table, place_content, start_table};

impl<'t, 'c> Sheet<'t, 'c> {
    /// An empty sheet over lent places. Whatever calls follow, the laws of runs hold of it.
    pub fn new(tables: &'t mut [Table], cells: &'c mut [Cell]) -> Sheet<'t, 'c>
        ensures state { state result ≡ empty tables.old cells.old }
        ensures runs { (calls : Sequence Call) → Told (state result) calls }
    {
        Sheet {
            tables: List::new(tables),
            cells: List::new(cells),
            laid: false,
        }
    }

    /// Makes table 0, with 1 to 32 columns and a spacing from 0 to 8.
    pub fn start(&mut self, count: u8, spacing: u8) -> Result<(), Fault>
        ensures { DidSo (wanted (state self.old) (Start count spacing)) self.old self.new result }
    {
        start_table(&mut self.tables, count, spacing)
    }
}

impl Sheet<'_, '_> {
    /// Begins the next row of table t.
    pub fn row(&mut self, t: usize) -> Result<(), Fault>
        ensures { DidSo (wanted (state self.old) (Row t)) self.old self.new result }
    {
        begin_row(&mut self.tables, t)?;
        self.laid = false;
        Ok(())
    }

    /// Places a content at the lowest free column of table t's current row, and returns the cell's number.
    pub fn place(&mut self, t: usize, content: u16, across: u8, down: u8) -> Result<usize, Fault>
        ensures { DidNumber (wanted (state self.old) (Place t content across down)) self.old self.new result }
    {
        let cell = place_content(&mut self.tables, &mut self.cells, t, content, across, down)?;
        self.laid = false;
        Ok(cell)
    }

    /// Adds a cell that holds a new table, and returns the table's number.
    pub fn nest(
        &mut self,
        t: usize,
        across: u8,
        down: u8,
        count: u8,
        spacing: u8,
    ) -> Result<usize, Fault>
        ensures { DidNumber (wanted (state self.old) (Nest t across down count spacing)) self.old self.new result }
    {
        let table = nest_table(
            &mut self.tables,
            &mut self.cells,
            t,
            across,
            down,
            count,
            spacing,
        )?;
        self.laid = false;
        Ok(table)
    }

    /// Fixes column j of table t at a width from 1 to 1,000, or frees it at 0.
    pub fn width(&mut self, t: usize, j: usize, width: u16) -> Result<(), Fault>
        ensures { DidSo (wanted (state self.old) (Width t j width)) self.old self.new result }
    {
        fix_width(&mut self.tables, t, j, width)?;
        self.laid = false;
        Ok(())
    }

    /// Cell i, if there is one.
    pub fn cell(&self, i: usize) -> Option<Cell>
        ensures value { result ≡ slice_get (state self.now).cells.items i }
        ensures planned { Planned (state self.now) }
    {
        self.cells.get(i)
    }

    /// Table t, if there is one.
    pub fn table(&self, t: usize) -> Option<Table>
        ensures value { result ≡ slice_get (state self.now).tables.items t }
        ensures tied { RecordTied (state self.now) }
    {
        self.tables.get(t)
    }

    /// How many cells there are.
    pub fn cell_count(&self) -> usize
        ensures { result ≡ length (state self.now).cells.items }
    {
        self.cells.len()
    }

    /// How many tables there are.
    pub fn table_count(&self) -> usize
        ensures { result ≡ length (state self.now).tables.items }
    {
        self.tables.len()
    }
}
