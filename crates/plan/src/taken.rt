// Which columns of a table are taken in the rows that are still open.
ghost use Rattle.std.specs.Prelude.{◌≡◌, ◌+◌, ◌≤◌, nat_le};
ghost use Rattle.std.specs.List.{list_all, position};
ghost use Rattle.plan.specs.Taken.{spot, none_taken, open_at, taken_to};

use crate::record::COLUMNS;
use crate::span::Span;

/// For each column the first row from which on no cell placed so far takes it.
#[derive(Clone, Copy, PartialEq, Eq, Debug)]
pub struct Taken {
    pub(crate) until: [u8; COLUMNS],
}

impl Taken {
    /// No column is taken.
    pub(crate) fn new() -> Taken
        ensures { result ≡ none_taken }
    {
        Taken {
            until: [0; COLUMNS],
        }
    }

    /// The column at which a span goes into the row, if it fits there: the lowest that is free.
    pub(crate) fn spot(&self, row: u8, count: u8, span: Span) -> Option<u8>
        requires { count ≤ 32 }
        ensures { result ≡ spot (open_at self.now row) count span.across }
    {
        let columns = &self.until[..count as usize];
        let j = first_open(columns, row)?;
        let under = columns.get(j..j + span.across as usize)?;
        are_open(under, row).then_some(j as u8)
    }

    /// Takes the columns of a span from j on, up to the row `until`.
    pub(crate) fn take(&mut self, j: u8, span: Span, until: u8)
        requires { j + span.across ≤ 32 }
        ensures { self.new ≡ taken_to self.old j span.across until }
    {
        self.until[j as usize..(j + span.across) as usize].fill(until);
    }
}

// The first of the columns that is open in the row.
fn first_open(columns: &[u8], row: u8) -> Option<usize>
    ensures { result ≡ position (λ until. nat_le until row) columns.now }
{
    columns.iter().position(|until| *until <= row)
}

// Whether all of the columns are open in the row.
fn are_open(columns: &[u8], row: u8) -> bool
    ensures { result ≡ list_all (λ until. nat_le until row) columns.now }
{
    columns.iter().all(|until| *until <= row)
}
