// Placing contents.
use crate::sheets::*;
use crate::steps::Answer::*;
use crate::steps::Step::*;
use fault::Reason::*;
use plan::Holds::*;

#[test]
fn spans_outside_their_range(rt: HostRuntime) {
    check_run(
        &rt,
        (1, 3),
        &[
            (Start(32, 0), Done),
            (Row(0), Done),
            (Place(0, 5, 0, 1), Refused(OutOfRange)),
            (Place(0, 5, 33, 1), Refused(OutOfRange)),
            (Place(0, 5, 255, 1), Refused(OutOfRange)),
            (Place(0, 5, 1, 0), Refused(OutOfRange)),
            (Place(0, 5, 1, 65), Refused(OutOfRange)),
            (Place(0, 5, 1, 255), Refused(OutOfRange)),
            (Place(0, 5, 0, 0), Refused(OutOfRange)),
            (Place(0, 5, 0, 64), Refused(OutOfRange)),
            (Place(0, 5, 32, 0), Refused(OutOfRange)),
            (Place(0, 5, 33, 64), Refused(OutOfRange)),
            (Place(0, 5, 32, 65), Refused(OutOfRange)),
            (Place(0, 5, 33, 65), Refused(OutOfRange)),
            (Place(0, 5, 32, 64), Number(0)),
        ],
        &[(32, 0, 1, 64)],
        &[(0, 0, 0, 32, 64, Content(5))],
        &[],
    );
}

#[test]
fn least_and_greatest_spans(rt: HostRuntime) {
    check_run(
        &rt,
        (1, 9),
        &[
            (Start(32, 0), Done),
            (Row(0), Done),
            (Place(0, 1, 1, 1), Number(0)),
            (Place(0, 2, 1, 64), Number(1)),
            (Place(0, 3, 30, 1), Number(2)),
            (Place(0, 4, 1, 1), Refused(NoFreeColumns)),
            (Row(0), Done),
            (Place(0, 5, 32, 1), Refused(NoFreeColumns)),
            (Place(0, 6, 1, 63), Number(3)),
            (Place(0, 7, 30, 1), Number(4)),
            (Place(0, 8, 1, 1), Refused(NoFreeColumns)),
        ],
        &[(32, 0, 2, 64)],
        &[
            (0, 0, 0, 1, 1, Content(1)),
            (0, 0, 1, 1, 64, Content(2)),
            (0, 0, 2, 30, 1, Content(3)),
            (0, 1, 0, 1, 63, Content(6)),
            (0, 1, 2, 30, 1, Content(7)),
        ],
        &[],
    );
}

// Any number does for a content, and one content can be placed twice.
#[test]
fn numbers_of_contents(rt: HostRuntime) {
    check_run(
        &rt,
        (1, 9),
        &[
            (Start(5, 0), Done),
            (Row(0), Done),
            (Place(0, 0, 1, 1), Number(0)),
            (Place(0, 65535, 1, 1), Number(1)),
            (Place(0, 1, 1, 1), Number(2)),
            (Place(0, 65534, 1, 1), Number(3)),
            (Place(0, 65535, 1, 1), Number(4)),
        ],
        &[(5, 0, 1, 1)],
        &[
            (0, 0, 0, 1, 1, Content(0)),
            (0, 0, 1, 1, 1, Content(65535)),
            (0, 0, 2, 1, 1, Content(1)),
            (0, 0, 3, 1, 1, Content(65534)),
            (0, 0, 4, 1, 1, Content(65535)),
        ],
        &[],
    );
}

#[test]
fn no_such_table(rt: HostRuntime) {
    check_run(
        &rt,
        (9, 9),
        &[
            (Place(0, 5, 1, 1), Refused(NotFound)),
            (Place(usize::MAX, 5, 1, 1), Refused(NotFound)),
            (Start(2, 0), Done),
            (Row(0), Done),
            (Place(1, 5, 1, 1), Refused(NotFound)),
            (Place(64, 5, 1, 1), Refused(NotFound)),
            (Place(usize::MAX, 5, 1, 1), Refused(NotFound)),
            (Nest(0, 1, 1, 1, 0), Number(1)),
            (Row(1), Done),
            (Place(1, 5, 1, 1), Number(1)),
            (Place(2, 5, 1, 1), Refused(NotFound)),
        ],
        &[(2, 0, 1, 1), (1, 0, 1, 1)],
        &[(0, 0, 0, 1, 1, Inner(1)), (1, 0, 0, 1, 1, Content(5))],
        &[],
    );
}

#[test]
fn before_the_first_row(rt: HostRuntime) {
    check_run(
        &rt,
        (2, 3),
        &[
            (Start(2, 0), Done),
            (Place(0, 5, 1, 1), Refused(NoRow)),
            (Place(0, 5, 2, 64), Refused(NoRow)),
            (Row(0), Done),
            (Place(0, 6, 1, 1), Number(0)),
            (Nest(0, 1, 1, 3, 0), Number(1)),
            (Place(1, 5, 1, 1), Refused(NoRow)),
            (Place(1, 5, 3, 64), Refused(NoRow)),
            (Row(0), Done),
            (Place(1, 5, 1, 1), Refused(NoRow)),
            (Row(1), Done),
            (Place(1, 7, 1, 1), Number(2)),
        ],
        &[(2, 0, 2, 2), (3, 0, 1, 1)],
        &[
            (0, 0, 0, 1, 1, Content(6)),
            (0, 0, 1, 1, 1, Inner(1)),
            (1, 0, 0, 1, 1, Content(7)),
        ],
        &[],
    );
}

// Cells fill a row from the left, and the next row is free again.
#[test]
fn side_by_side(rt: HostRuntime) {
    check_run(
        &rt,
        (1, 9),
        &[
            (Start(6, 0), Done),
            (Row(0), Done),
            (Place(0, 1, 1, 1), Number(0)),
            (Place(0, 2, 2, 1), Number(1)),
            (Place(0, 3, 1, 1), Number(2)),
            (Place(0, 4, 3, 1), Refused(NoFreeColumns)),
            (Place(0, 5, 2, 1), Number(3)),
            (Place(0, 6, 1, 1), Refused(NoFreeColumns)),
            (Row(0), Done),
            (Place(0, 7, 6, 1), Number(4)),
            (Place(0, 8, 1, 1), Refused(NoFreeColumns)),
        ],
        &[(6, 0, 2, 2)],
        &[
            (0, 0, 0, 1, 1, Content(1)),
            (0, 0, 1, 2, 1, Content(2)),
            (0, 0, 3, 1, 1, Content(3)),
            (0, 0, 4, 2, 1, Content(5)),
            (0, 1, 0, 6, 1, Content(7)),
        ],
        &[],
    );
}

// In row 1 the second and third column are taken from above, in row 2 the second and fourth, and in row 3 the third.
#[test]
fn around_cells_from_above(rt: HostRuntime) {
    check_run(
        &rt,
        (1, 10),
        &[
            (Start(4, 1), Done),
            (Row(0), Done),
            (Place(0, 10, 1, 1), Number(0)),
            (Place(0, 11, 1, 3), Number(1)),
            (Place(0, 12, 1, 2), Number(2)),
            (Place(0, 13, 1, 1), Number(3)),
            (Row(0), Done),
            (Place(0, 14, 1, 1), Number(4)),
            (Place(0, 15, 1, 2), Number(5)),
            (Place(0, 16, 1, 1), Refused(NoFreeColumns)),
            (Row(0), Done),
            (Place(0, 17, 2, 1), Refused(NoFreeColumns)),
            (Place(0, 18, 1, 1), Number(6)),
            (Place(0, 19, 2, 1), Refused(NoFreeColumns)),
            (Place(0, 20, 1, 4), Number(7)),
            (Place(0, 21, 1, 1), Refused(NoFreeColumns)),
            (Row(0), Done),
            (Place(0, 22, 2, 1), Number(8)),
            (Place(0, 23, 1, 1), Number(9)),
        ],
        &[(4, 1, 4, 6)],
        &[
            (0, 0, 0, 1, 1, Content(10)),
            (0, 0, 1, 1, 3, Content(11)),
            (0, 0, 2, 1, 2, Content(12)),
            (0, 0, 3, 1, 1, Content(13)),
            (0, 1, 0, 1, 1, Content(14)),
            (0, 1, 3, 1, 2, Content(15)),
            (0, 2, 0, 1, 1, Content(18)),
            (0, 2, 2, 1, 4, Content(20)),
            (0, 3, 0, 2, 1, Content(22)),
            (0, 3, 3, 1, 1, Content(23)),
        ],
        &[],
    );
}

// Only the lowest free column is tried, though there would be room further right.
#[test]
fn room_further_right(rt: HostRuntime) {
    check_run(
        &rt,
        (1, 9),
        &[
            (Start(5, 0), Done),
            (Row(0), Done),
            (Place(0, 1, 1, 1), Number(0)),
            (Place(0, 2, 1, 2), Number(1)),
            (Row(0), Done),
            (Place(0, 3, 2, 1), Refused(NoFreeColumns)),
            (Place(0, 3, 3, 1), Refused(NoFreeColumns)),
            (Place(0, 3, 5, 1), Refused(NoFreeColumns)),
            (Place(0, 3, 1, 1), Number(2)),
            (Place(0, 4, 4, 1), Refused(NoFreeColumns)),
            (Place(0, 4, 3, 1), Number(3)),
            (Place(0, 5, 1, 1), Refused(NoFreeColumns)),
        ],
        &[(5, 0, 2, 2)],
        &[
            (0, 0, 0, 1, 1, Content(1)),
            (0, 0, 1, 1, 2, Content(2)),
            (0, 1, 0, 1, 1, Content(3)),
            (0, 1, 2, 3, 1, Content(4)),
        ],
        &[],
    );
}

#[test]
fn wider_than_what_is_left(rt: HostRuntime) {
    check_run(
        &rt,
        (1, 9),
        &[
            (Start(4, 0), Done),
            (Row(0), Done),
            (Place(0, 1, 5, 1), Refused(NoFreeColumns)),
            (Place(0, 1, 32, 1), Refused(NoFreeColumns)),
            (Place(0, 1, 2, 2), Number(0)),
            (Row(0), Done),
            (Place(0, 2, 3, 1), Refused(NoFreeColumns)),
            (Place(0, 2, 4, 1), Refused(NoFreeColumns)),
            (Place(0, 2, 2, 1), Number(1)),
            (Row(0), Done),
            (Place(0, 3, 4, 1), Number(2)),
        ],
        &[(4, 0, 3, 3)],
        &[
            (0, 0, 0, 2, 2, Content(1)),
            (0, 1, 2, 2, 1, Content(2)),
            (0, 2, 0, 4, 1, Content(3)),
        ],
        &[],
    );
}

#[test]
fn past_row_63(rt: HostRuntime) {
    check_run(
        &rt,
        (1, 9),
        &[
            (Start(4, 0), Done),
            (Row(0), Done),
            (Place(0, 1, 1, 64), Number(0)),
            (Row(0), Done),
            (Place(0, 2, 1, 64), Refused(PastLastRow)),
            (Place(0, 2, 1, 63), Number(1)),
            (Rows(0, 61), Done),
            (Place(0, 3, 1, 3), Refused(PastLastRow)),
            (Place(0, 3, 1, 2), Number(2)),
            (Row(0), Done),
            (Place(0, 4, 1, 2), Refused(PastLastRow)),
            (Place(0, 4, 1, 64), Refused(PastLastRow)),
            (Place(0, 4, 1, 1), Number(3)),
            (Place(0, 5, 1, 1), Refused(NoFreeColumns)),
            (Row(0), Refused(PastLastRow)),
        ],
        &[(4, 0, 64, 64)],
        &[
            (0, 0, 0, 1, 64, Content(1)),
            (0, 1, 1, 1, 63, Content(2)),
            (0, 62, 2, 1, 2, Content(3)),
            (0, 63, 3, 1, 1, Content(4)),
        ],
        &[],
    );
}

#[test]
fn a_full_list(rt: HostRuntime) {
    check_run(
        &rt,
        (1, 2),
        &[
            (Start(3, 0), Done),
            (Row(0), Done),
            (Place(0, 1, 1, 1), Number(0)),
            (Place(0, 2, 1, 1), Number(1)),
            (Place(0, 3, 1, 1), Refused(Full)),
            (Place(0, 3, 1, 9), Refused(Full)),
            (Row(0), Done),
            (Place(0, 3, 3, 1), Refused(Full)),
        ],
        &[(3, 0, 2, 2)],
        &[(0, 0, 0, 1, 1, Content(1)), (0, 0, 1, 1, 1, Content(2))],
        &[],
    );
}

// Rows left behind take no more cells.
#[test]
fn the_row_begun_last(rt: HostRuntime) {
    check_run(
        &rt,
        (1, 9),
        &[
            (Start(2, 0), Done),
            (Rows(0, 3), Done),
            (Place(0, 1, 1, 1), Number(0)),
            (Row(0), Done),
            (Place(0, 2, 1, 1), Number(1)),
            (Place(0, 3, 1, 1), Number(2)),
            (Place(0, 4, 1, 1), Refused(NoFreeColumns)),
        ],
        &[(2, 0, 4, 4)],
        &[
            (0, 2, 0, 1, 1, Content(1)),
            (0, 3, 0, 1, 1, Content(2)),
            (0, 3, 1, 1, 1, Content(3)),
        ],
        &[],
    );
}

// Cells are counted over all tables, and take columns only of their own.
#[test]
fn cells_of_two_tables(rt: HostRuntime) {
    check_run(
        &rt,
        (2, 9),
        &[
            (Start(2, 0), Done),
            (Row(0), Done),
            (Nest(0, 1, 3, 2, 0), Number(1)),
            (Row(1), Done),
            (Place(1, 1, 1, 2), Number(1)),
            (Place(0, 2, 1, 1), Number(2)),
            (Row(0), Done),
            (Place(0, 3, 1, 1), Number(3)),
            (Place(1, 4, 1, 1), Number(4)),
            (Place(0, 5, 1, 1), Refused(NoFreeColumns)),
            (Row(1), Done),
            (Place(1, 6, 2, 1), Refused(NoFreeColumns)),
            (Place(1, 6, 1, 1), Number(5)),
            (Place(1, 7, 1, 1), Refused(NoFreeColumns)),
        ],
        &[(2, 0, 2, 3), (2, 0, 2, 2)],
        &[
            (0, 0, 0, 1, 3, Inner(1)),
            (1, 0, 0, 1, 2, Content(1)),
            (0, 0, 1, 1, 1, Content(2)),
            (0, 1, 1, 1, 1, Content(3)),
            (1, 0, 1, 1, 1, Content(4)),
            (1, 1, 1, 1, 1, Content(6)),
        ],
        &[],
    );
}
