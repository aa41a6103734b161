// The share rule: an amount is shared over weights.
#![tactic(auto)]

ghost use Rattle.std.specs.Prelude.{◌≡◌, ◌-◌};
ghost use Rattle.share.specs.Laws.{SharesAreFair};
ghost use Rattle.share.specs.Share.{brings};

// What the weights up to a sum `upto` bring of an amount, where all weights sum to `sum`; of a sum of 0 it is 0.
fn brings(amount: u32, sum: u32, upto: u32) -> u64
    ensures { result ≡ brings amount sum upto }
{
    (u64::from(amount) * u64::from(upto))
        .checked_div(u64::from(sum))
        .unwrap_or(0)
}

/// One part of an amount: what the weights up to and with its own bring, less what those before it bring. Of a sum of 0 it is 0.
pub fn part(amount: u32, before: u32, upto: u32, sum: u32) -> u64
    ensures value { result ≡ brings amount sum upto - brings amount sum before }
    ensures fair { SharesAreFair }
{
    brings(amount, sum, upto).saturating_sub(brings(amount, sum, before))
}
