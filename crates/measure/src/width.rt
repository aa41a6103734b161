// The columns get their widths.
ghost use Rattle.std.specs.Prelude.{◌≡◌, ◌+◌, ◌-◌, ◌≤◌, length};
ghost use Rattle.columns.specs.Columns.{overflow_of};
ghost use Rattle.measure.specs.Widths.{as_wide, given_of};

use crate::sweep::{deal, each, sum_of};
use plan::Column;

// How far the greatest is above the least.
fn spread_of(c: &Column) -> u16
    ensures { result ≡ c.now.greatest - c.now.least }
{
    c.greatest.saturating_sub(c.least)
}

// The column is p wider than its least.
fn widen(c: &mut Column, p: u16)
    requires { p ≤ c.old.greatest - c.old.least }
    ensures { c.new ≡ as_wide (c.old.least + p) c.old }
{
    c.width = c.least + p;
}

// The columns get the widths that an offer gives; the answer is by how much it falls short of the least width.
pub(crate) fn give(spacing: u8, offered: u32, cols: &mut [Column]) -> u32
    requires { length cols.old ≤ 32 }
    ensures widths { cols.new ≡ given_of spacing offered cols.old }
    ensures overflow { result ≡ overflow_of spacing cols.old offered }
{
    let around = u32::from(spacing) * (cols.len() as u32 + 1);
    let least = sum_of(cols, |c| c.least) + around;
    let greatest = sum_of(cols, |c| c.greatest) + around;
    if offered <= least {
        each(cols, |c| c.width = c.least);
    } else if greatest <= offered {
        each(cols, |c| c.width = c.greatest);
    } else {
        deal(offered - least, cols, spread_of, widen);
    }
    least.saturating_sub(offered)
}
