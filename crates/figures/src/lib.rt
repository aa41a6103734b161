// The worked figures of the rules follow from the definitions.
#![tactic(auto)]

ghost use Rattle.std.specs.Prelude.{◌≡◌, length};
ghost use Rattle.figures.specs.Figures.{figures, FiguresHold};

/// Each figure of the list is what the definitions reckon; returns how many there are.
pub fn figures_hold() -> usize
    ensures hold { FiguresHold }
    ensures count { result ≡ length figures }
{
    13
}
