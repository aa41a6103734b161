// One column is raised.
ghost use Rattle.std.specs.Prelude.{◌≡◌, ◌-◌, ◌≤◌};
ghost use Rattle.columns.specs.Columns.{free, weight, fresh, held};
ghost use Rattle.measure.specs.Asks.{raised_by};
ghost use Rattle.measure.specs.Bounds.{bound_of, more, all_share};

use crate::ask::Ask;
use plan::{Column, Sizing};

// Whether the column is free.
pub(crate) fn is_free(c: &Column) -> bool
    ensures { result ≡ free c.now }
{
    matches!(c.sizing, Sizing::Free)
}

// What the column counts for in an even share: 1 if it is free, or if all count.
pub(crate) fn weigh(all: bool, c: &Column) -> u16
    ensures { result ≡ weight all c.now }
{
    u16::from(all || is_free(c))
}

// The column as it starts.
pub(crate) fn reset(c: &mut Column)
    ensures { c.new ≡ fresh c.old }
{
    c.least = 1;
    c.greatest = 1;
}

// A cell of span 1 raises its column.
pub(crate) fn raise(c: &mut Column, ask: Ask)
    ensures { c.new ≡ raised_by ask c.old }
{
    c.least = c.least.max(ask.least);
    c.greatest = c.greatest.max(ask.greatest);
}

// A fixed column gets the larger of its width and its least.
pub(crate) fn hold(c: &mut Column)
    ensures { c.new ≡ held c.old }
{
    if let Sizing::Fixed(f) = c.sizing {
        let w = f.max(c.least);
        c.least = w;
        c.greatest = w;
    }
}

// One of the two bounds of a column's width.
// An enum, and no closures or trait: one pass reads a bound, asks who shares in it and lets it grow, which would be three closures for each
// of the two, or two impls of three functions.
#[derive(Clone, Copy, PartialEq, Eq, Debug)]
pub(crate) enum Bound {
    Least,
    Greatest,
}

impl Bound {
    // The bound of a column.
    pub(crate) fn of(self, c: &Column) -> u16
        ensures { result ≡ bound_of self c.now }
    {
        match self {
            Bound::Least => c.least,
            Bound::Greatest => c.greatest,
        }
    }

    // It grows by p; where it is the least, the greatest follows.
    pub(crate) fn grow(self, c: &mut Column, p: u16)
        requires { p ≤ 65535 - bound_of self c.old }
        ensures { c.new ≡ more self p c.old }
    {
        match self {
            Bound::Least => {
                c.least += p;
                c.greatest = if is_free(c) {
                    c.greatest.max(c.least)
                } else {
                    c.least
                };
            }
            Bound::Greatest => c.greatest += p,
        }
    }

    // Whether fixed columns share too: only in the leasts, and where no column is free.
    pub(crate) fn all_share(self, cols: &[Column]) -> bool
        ensures { result ≡ all_share self cols.now }
    {
        match self {
            Bound::Least => !cols.iter().any(is_free),
            Bound::Greatest => false,
        }
    }
}
