// Which refusal is answered where several would do: the first in the order of each call.
use crate::sheets::*;
use crate::steps::Answer::*;
use crate::steps::Step::*;
use fault::Reason::*;
use plan::Holds::*;

// A start outside its range on a started sheet with a full list, and each of the later two alone with what comes after it.
#[test]
fn of_start(rt: HostRuntime) {
    check_run(
        &rt,
        (1, 0),
        &[
            (Start(2, 0), Done),
            (Start(0, 0), Refused(OutOfRange)),
            (Start(33, 0), Refused(OutOfRange)),
            (Start(2, 9), Refused(OutOfRange)),
            (Start(2, 0), Refused(AlreadyStarted)),
        ],
        &[(2, 0, 0, 0)],
        &[],
        &[],
    );
    check_run(
        &rt,
        (0, 0),
        &[
            (Start(0, 0), Refused(OutOfRange)),
            (Start(33, 0), Refused(OutOfRange)),
            (Start(2, 9), Refused(OutOfRange)),
            (Start(2, 0), Refused(Full)),
        ],
        &[],
        &[],
        &[],
    );
}

#[test]
fn of_row(rt: HostRuntime) {
    check_run(
        &rt,
        (1, 0),
        &[
            (Start(2, 0), Done),
            (Rows(0, 64), Done),
            (Row(1), Refused(NotFound)),
            (Row(0), Refused(PastLastRow)),
        ],
        &[(2, 0, 64, 64)],
        &[],
        &[],
    );
}

// There is no room for cells, so that what is refused for nothing else is refused with 7.
#[test]
fn of_place_in_a_full_list(rt: HostRuntime) {
    check_run(
        &rt,
        (1, 0),
        &[
            (Place(0, 5, 0, 1), Refused(OutOfRange)),
            (Place(0, 5, 1, 65), Refused(OutOfRange)),
            (Place(0, 5, 1, 1), Refused(NotFound)),
            (Start(3, 0), Done),
            (Place(1, 5, 33, 1), Refused(OutOfRange)),
            (Place(0, 5, 33, 1), Refused(OutOfRange)),
            (Place(0, 5, 1, 0), Refused(OutOfRange)),
            (Place(1, 5, 4, 1), Refused(NotFound)),
            (Place(0, 5, 4, 1), Refused(NoRow)),
            (Place(0, 5, 1, 1), Refused(NoRow)),
            (Rows(0, 64), Done),
            (Place(1, 5, 4, 65), Refused(OutOfRange)),
            (Place(0, 5, 4, 65), Refused(OutOfRange)),
            (Place(0, 5, 33, 2), Refused(OutOfRange)),
            (Place(1, 5, 4, 2), Refused(NotFound)),
            (Place(0, 5, 4, 2), Refused(NoFreeColumns)),
            (Place(0, 5, 4, 1), Refused(NoFreeColumns)),
            (Place(0, 5, 3, 2), Refused(PastLastRow)),
            (Place(0, 5, 3, 1), Refused(Full)),
        ],
        &[(3, 0, 64, 64)],
        &[],
        &[],
    );
}

// The same with room for cells: in row 62 a cell reaches down, so that in row 63 there is no free column, or only one.
#[test]
fn of_place_with_room(rt: HostRuntime) {
    check_run(
        &rt,
        (1, 9),
        &[
            (Place(0, 5, 0, 1), Refused(OutOfRange)),
            (Start(3, 0), Done),
            (Place(0, 5, 0, 1), Refused(OutOfRange)),
            (Place(1, 5, 1, 1), Refused(NotFound)),
            (Place(0, 5, 4, 1), Refused(NoRow)),
            (Rows(0, 63), Done),
            (Place(0, 5, 4, 3), Refused(NoFreeColumns)),
            (Place(0, 5, 3, 3), Refused(PastLastRow)),
            (Place(0, 5, 1, 1), Number(0)),
            (Place(0, 6, 1, 2), Number(1)),
            (Row(0), Done),
            (Place(0, 7, 2, 2), Refused(NoFreeColumns)),
            (Place(0, 7, 1, 2), Refused(PastLastRow)),
            (Place(0, 7, 1, 1), Number(2)),
            (Place(0, 8, 1, 1), Number(3)),
            (Place(0, 9, 1, 2), Refused(NoFreeColumns)),
            (Place(0, 9, 1, 65), Refused(OutOfRange)),
        ],
        &[(3, 0, 64, 64)],
        &[
            (0, 62, 0, 1, 1, Content(5)),
            (0, 62, 1, 1, 2, Content(6)),
            (0, 63, 0, 1, 1, Content(7)),
            (0, 63, 2, 1, 1, Content(8)),
        ],
        &[],
    );
}

// There is no room for cells or tables, so that what is refused for nothing else is refused with 7.
#[test]
fn of_nest_in_full_lists(rt: HostRuntime) {
    check_run(
        &rt,
        (1, 0),
        &[
            (Nest(0, 0, 1, 1, 0), Refused(OutOfRange)),
            (Nest(0, 1, 1, 0, 0), Refused(OutOfRange)),
            (Nest(0, 1, 1, 1, 9), Refused(OutOfRange)),
            (Nest(0, 1, 1, 1, 0), Refused(NotFound)),
            (Start(3, 0), Done),
            (Nest(0, 1, 65, 1, 0), Refused(OutOfRange)),
            (Nest(0, 1, 1, 33, 0), Refused(OutOfRange)),
            (Nest(0, 1, 1, 1, 9), Refused(OutOfRange)),
            (Nest(1, 4, 1, 1, 0), Refused(NotFound)),
            (Nest(0, 4, 1, 1, 0), Refused(NoRow)),
            (Nest(0, 1, 1, 1, 0), Refused(NoRow)),
            (Rows(0, 64), Done),
            (Nest(1, 4, 2, 1, 9), Refused(OutOfRange)),
            (Nest(0, 4, 2, 33, 0), Refused(OutOfRange)),
            (Nest(0, 3, 65, 1, 0), Refused(OutOfRange)),
            (Nest(0, 3, 1, 0, 0), Refused(OutOfRange)),
            (Nest(1, 4, 2, 1, 0), Refused(NotFound)),
            (Nest(0, 4, 2, 1, 0), Refused(NoFreeColumns)),
            (Nest(0, 4, 1, 1, 0), Refused(NoFreeColumns)),
            (Nest(0, 3, 2, 1, 0), Refused(PastLastRow)),
            (Nest(0, 3, 1, 1, 0), Refused(Full)),
        ],
        &[(3, 0, 64, 64)],
        &[],
        &[],
    );
}

// There is room for a cell but not for a table, and then for a table but not for a cell.
#[test]
fn of_nest_in_one_full_list(rt: HostRuntime) {
    check_run(
        &rt,
        (1, 9),
        &[
            (Start(3, 0), Done),
            (Nest(0, 1, 1, 1, 0), Refused(NoRow)),
            (Rows(0, 64), Done),
            (Nest(0, 3, 1, 33, 0), Refused(OutOfRange)),
            (Nest(1, 3, 1, 1, 0), Refused(NotFound)),
            (Nest(0, 4, 2, 1, 0), Refused(NoFreeColumns)),
            (Nest(0, 3, 2, 1, 0), Refused(PastLastRow)),
            (Nest(0, 3, 1, 1, 0), Refused(Full)),
        ],
        &[(3, 0, 64, 64)],
        &[],
        &[],
    );
    check_run(
        &rt,
        (9, 0),
        &[
            (Start(3, 0), Done),
            (Nest(0, 1, 1, 1, 0), Refused(NoRow)),
            (Rows(0, 64), Done),
            (Nest(0, 3, 1, 1, 9), Refused(OutOfRange)),
            (Nest(1, 3, 1, 1, 0), Refused(NotFound)),
            (Nest(0, 4, 2, 1, 0), Refused(NoFreeColumns)),
            (Nest(0, 3, 2, 1, 0), Refused(PastLastRow)),
            (Nest(0, 3, 1, 1, 0), Refused(Full)),
        ],
        &[(3, 0, 64, 64)],
        &[],
        &[],
    );
}

#[test]
fn of_width(rt: HostRuntime) {
    check_run(
        &rt,
        (1, 0),
        &[
            (Width(0, 0, 1001), Refused(OutOfRange)),
            (Width(0, 0, 1000), Refused(NotFound)),
            (Start(3, 0), Done),
            (Width(1, 0, 1001), Refused(OutOfRange)),
            (Width(0, 3, 1001), Refused(OutOfRange)),
            (Width(1, 3, 65535), Refused(OutOfRange)),
            (Width(1, 0, 1000), Refused(NotFound)),
            (Width(0, 3, 1000), Refused(NotFound)),
            (Width(1, 3, 0), Refused(NotFound)),
        ],
        &[(3, 0, 0, 0)],
        &[],
        &[],
    );
}
