// How many columns and rows a cell takes.
ghost use Rattle.std.specs.Prelude.{◌≡◌, ◌≤◌, true, false, MatchResult};
ghost use Rattle.fault.specs.Numbers.{fault};
ghost use Rattle.fault.specs.declared.Reason.TheVariants.{OutOfRange};
ghost use Rattle.plan.specs.Steps.{span_range};

use crate::record::{COLUMNS, ROWS};
use fault::{Fault, Reason};

/// A cell's columns across and rows down, of which a table can have so many.
#[derive(Clone, Copy)]
pub(crate) struct Span {
    pub(crate) across: u8,
    pub(crate) down: u8,
    ghost some: { 1 ≤ across },
    ghost wide: { across ≤ 32 },
    ghost tall: { down ≤ 64 },
}

impl Span {
    /// A span of 1 to 32 columns and 1 to 64 rows.
    pub(crate) fn new(across: u8, down: u8) -> Result<Span, Fault>
        ensures { MatchResult result (λ s. (span_range across down ≡ true) × (s.across ≡ across) × (s.down ≡ down)) (λ f. (span_range across down ≡ false) × (f ≡ fault OutOfRange 0)) }
    {
        if across < 1 || across as usize > COLUMNS || down < 1 || down as usize > ROWS {
            return Err(Fault::new(Reason::OutOfRange));
        }
        Ok(Span { across, down })
    }
}
