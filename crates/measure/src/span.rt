// The columns that a cell spans are raised one after another.
ghost use Rattle.std.specs.Prelude.{◌≡◌, ◌≤◌, length};
ghost use Rattle.measure.specs.Asks.{lifted};
ghost use Rattle.measure.specs.Bounds.{meet};

use crate::ask::Ask;
use crate::column::{Bound, raise, weigh};
use crate::sweep::{deal, sum_of};
use plan::Column;

// What a width asks of one of the bounds is shared over the columns, which are those of a whole span.
fn meet_bound(bound: Bound, spacing: u8, wanted: u16, cols: &mut [Column])
    requires { length cols.old ≤ 32 }
    ensures { cols.new ≡ meet bound spacing (length cols.old) wanted cols.old }
{
    let between = (cols.len() as u32).saturating_sub(1) * u32::from(spacing);
    let has = sum_of(cols, |c| bound.of(c));
    let need = u32::from(wanted)
        .saturating_sub(between)
        .saturating_sub(has);
    let all = bound.all_share(cols);
    deal(need, cols, |c| weigh(all, c), |c, p| bound.grow(c, p));
}

// The columns that a cell spans are raised by what it asks.
pub(crate) fn lift(spacing: u8, ask: Ask, cols: &mut [Column])
    requires { length cols.old ≤ 32 }
    ensures { cols.new ≡ lifted spacing ask cols.old }
{
    if let [c] = cols {
        raise(c, ask);
    } else {
        meet_bound(Bound::Least, spacing, ask.least, cols);
        meet_bound(Bound::Greatest, spacing, ask.greatest, cols);
    }
}
