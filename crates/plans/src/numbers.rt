// The number of every refusal.
use fault::Reason;
use std::process::Abort;

#[test]
fn of_refusals(rt: HostRuntime) {
    let numbers: [(Reason, u8); 22] = [
        (Reason::OutOfRange, 1),
        (Reason::NotFound, 2),
        (Reason::AlreadyStarted, 3),
        (Reason::NoRow, 4),
        (Reason::NoFreeColumns, 5),
        (Reason::PastLastRow, 6),
        (Reason::Full, 7),
        (Reason::NotLaid, 8),
        (Reason::NotOnShelf, 9),
        (Reason::TooWide, 10),
        (Reason::TooTall, 11),
        (Reason::PastPageEnd, 12),
        (Reason::WrongPageLength, 13),
        (Reason::UnfitWidth, 14),
        (Reason::PastLastLine, 15),
        (Reason::WrongLineLength, 16),
        (Reason::FileTooLong, 17),
        (Reason::ByteNotAllowed, 18),
        (Reason::Malformed, 19),
        (Reason::Misplaced, 20),
        (Reason::MixedContent, 21),
        (Reason::Unfinished, 22),
    ];
    for (reason, number) in numbers {
        assert_eq!(rt; reason.number(), number);
    }
}
