// Why a call declines, and where.
#![tactic(auto)]

ghost use Rattle.std.specs.Prelude.{◌≡◌};
ghost use Rattle.fault.specs.Numbers.{number_of, fault};

/// Every reason for which a call declines. docs/REFUSALS.md has the condition of each.
#[derive(Clone, Copy, PartialEq, Eq, Debug)]
pub enum Reason {
    OutOfRange = 1,
    NotFound = 2,
    AlreadyStarted = 3,
    NoRow = 4,
    NoFreeColumns = 5,
    PastLastRow = 6,
    Full = 7,
    NotLaid = 8,
    NotOnShelf = 9,
    TooWide = 10,
    TooTall = 11,
    PastPageEnd = 12,
    WrongPageLength = 13,
    UnfitWidth = 14,
    PastLastLine = 15,
    WrongLineLength = 16,
    FileTooLong = 17,
    ByteNotAllowed = 18,
    Malformed = 19,
    Misplaced = 20,
    MixedContent = 21,
    Unfinished = 22,
}

impl Reason {
    /// The number that a refusal is printed with.
    pub fn number(self) -> u8
        ensures { result ≡ number_of self }
    {
        self as u8
    }
}

/// A refusal: the reason, and the cell, table or byte that it names, 0 where it names none. The place is no Option: it is printed, and kept
/// by callers, as a number.
#[derive(Clone, Copy, PartialEq, Eq, Debug)]
pub struct Fault {
    pub reason: Reason,
    pub place: usize,
}

impl Fault {
    /// A refusal that names no place.
    pub fn new(reason: Reason) -> Fault
        ensures { result ≡ fault reason 0 }
    {
        Fault { reason, place: 0 }
    }

    /// A refusal at a place.
    pub fn at(reason: Reason, place: usize) -> Fault
        ensures { result ≡ fault reason place }
    {
        Fault { reason, place }
    }
}
