// The columns of a table are raised by what its cells ask.
ghost use Rattle.std.specs.Prelude.{◌≡◌, ℕ, false, length, slice_index_or};
ghost use Rattle.columns.specs.Columns.{each_of, spans, columns_of};
ghost use Rattle.measure.specs.Asks.{Absent, asks_in, asked, asks_of, step};

use crate::ask::Ask;
use crate::column::{hold, reset};
use crate::span::lift;
use crate::sweep::each;
use plan::{Cell, Column};

// What the cells of a table ask. The asks stand beside the cells, one for each number of a cell: there is no heap, and cells stand in memory
// that the caller lends.
#[derive(Clone, Copy)]
pub(crate) struct Asking<'a> {
    pub(crate) table: usize,
    pub(crate) cells: &'a [Cell],
    pub(crate) asks: &'a [Ask],
}

impl Asking<'_> {
    // Whether the cell is one of the table and lies in its n columns.
    fn asks_in(&self, n: usize, cell: &Cell) -> bool
        ensures { result ≡ asks_in self.now.table n cell.now }
    {
        cell.table == self.table
            && (1..=32).contains(&cell.across)
            && cell.column as usize + cell.across as usize <= n
    }

    // What cell i asks, if it spans s of the n columns.
    fn asked(&self, n: usize, s: u8, i: usize, cell: &Cell) -> Option<Ask>
        ensures { result ≡ asked self.now.table n s i cell.now self.now.asks.now }
    {
        if cell.across == s && self.asks_in(n, cell) {
            self.asks.get(i).copied()
        } else {
            None
        }
    }

    // The columns are raised by all cells of span s, in the order of their numbers.
    fn lift_all(&self, spacing: u8, s: u8, cols: &mut [Column])
        ensures { cols.new
            ≡ each_of s (step spacing) (asks_of self.now (length cols.old)) cols.old }
    {
        // A pass over the cells is a `for` over their records, with their numbers.
        for (i, cell) in self.cells.iter().enumerate() {
            if let Some(ask) = self.asked(cols.len(), s, i, cell) {
                let first = cell.column as usize;
                let end = first + cell.across as usize;
                lift(spacing, ask, &mut cols[first..end]);
            }
        }
    }

    // Which spans occur among the cells that ask for some of the n columns. A mark stands at the number of its span.
    fn mark_spans(&self, n: usize) -> [bool; 33]
        ensures { (s : ℕ) → slice_index_or result s false ≡ false → Absent self.now.table n s self.now.cells.now }
    {
        let mut marks = [false; 33];
        for cell in self.cells {
            if self.asks_in(n, cell) {
                marks[cell.across as usize] = true;
            }
        }
        marks
    }

    // The columns are raised by the cells of span 2, then 3, and so on to 32; only the spans that occur are walked.
    fn lift_spans(&self, spacing: u8, cols: &mut [Column])
        ensures { cols.new
            ≡ spans (step spacing) 31 2 (asks_of self.now (length cols.old)) cols.old }
    {
        let marks = self.mark_spans(cols.len());
        // A mark stands at the number of its span.
        for s in 2..33u8 {
            if marks[s as usize] {
                self.lift_all(spacing, s, cols);
            }
        }
    }

    // The columns of the table, as its cells ask.
    pub(crate) fn measure(&self, spacing: u8, cols: &mut [Column])
        ensures { cols.new
            ≡ columns_of spacing cols.old (asks_of self.now (length cols.old)) }
    {
        each(cols, reset);
        self.lift_all(spacing, 1, cols);
        each(cols, hold);
        self.lift_spans(spacing, cols);
    }
}
