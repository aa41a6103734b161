// Why nothing was set.
ghost use Rattle.std.specs.Prelude.{◌≡◌};
ghost use Rattle.specimen.specs.declared.trouble.Trouble.TheVariants.{Refused, Io};

use fault::Fault;
use std::io;

/// A refusal, or what went wrong in printing.
#[derive(Drop)]
pub(crate) enum Trouble {
    Refused(Fault),
    Io(io::Error),
}

impl From<Fault> for Trouble {
    ghost from_gives = { λ f t. t ≡ Refused f };

    fn from(fault: Fault) -> Trouble {
        Trouble::Refused(fault)
    }
}

impl From<io::Error> for Trouble {
    ghost from_gives = { λ e t. t ≡ Io e };

    fn from(error: io::Error) -> Trouble {
        Trouble::Io(error)
    }
}
