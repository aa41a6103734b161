// One pass over columns, for whatever is asked of each.
// Columns go as a slice, with a `requires` that they are few and the spacing beside it: each method of a struct over a `&mut [Column]`
// would have to promise also that the slice is the same reference and the spacing the same.
ghost use Rattle.std.specs.Prelude.{◌≡◌, ℕ, ◌*◌, ◌≤◌, map, length};
ghost use Rattle.share.specs.Share.{total, parts};
ghost use Rattle.columns.specs.Columns.{with_parts};
ghost use Rattle.plan.specs.declared.record.Column as columns;
ghost use Rattle.measure.specs.Sweeps.{Reckons, Changes, Gives, MayDeal};

use plan::Column;
use share::part;

// The sum of what f says of each column.
pub(crate) fn sum_of<F: Fn(&Column) -> u16>(cols: &[Column], f: F) -> u32
    requires few { length cols.now ≤ 32 }
    requires callable { F.IsAlwaysCallable f }
    ensures value { (w : columns.Column → ℕ) → Reckons F.Fn f w → result ≡ total (map w cols.now) }
    ensures small { result ≤ 65535 * 32 }
{
    cols.iter().map(|c| u32::from(f(c))).sum()
}

// Every column is changed by f.
pub(crate) fn each<F: Fn(&mut Column)>(cols: &mut [Column], f: F)
    requires { F.IsAlwaysCallable f }
    ensures { (g : columns.Column → columns.Column) → Changes F.Fn f g → cols.new ≡ map g cols.old }
{
    for c in cols.iter_mut() {
        f(c);
    }
}

// The columns share an amount by their weights, and each is changed by its part.
pub(crate) fn deal<W: Fn(&Column) -> u16, G: Fn(&mut Column, u16)>(
    amount: u32,
    cols: &mut [Column],
    weight: W,
    give: G,
)
    requires few { length cols.old ≤ 32 }
    requires callable { W.IsAlwaysCallable weight }
    requires takes { MayDeal W.Fn weight G.Fn give amount cols.old }
    ensures { (w : columns.Column → ℕ) (g : ℕ → columns.Column → columns.Column)
        → Reckons W.Fn weight w
        → Gives G.Fn give g
        → cols.new ≡ with_parts g (parts amount (map w cols.old)) cols.old }
{
    let sum = sum_of(&*cols, &weight);
    let mut before: u32 = 0;
    for c in cols.iter_mut() {
        let upto = before + u32::from(weight(c));
        give(c, part(amount, before, upto, sum) as u16);
        before = upto;
    }
}
