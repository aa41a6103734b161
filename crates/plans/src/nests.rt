// Nesting tables.
use crate::sheets::*;
use crate::steps::Answer::*;
use crate::steps::Step::*;
use fault::Reason::*;
use plan::Holds::*;

#[test]
fn spans_outside_their_range(rt: HostRuntime) {
    check_run(
        &rt,
        (3, 3),
        &[
            (Start(32, 0), Done),
            (Row(0), Done),
            (Nest(0, 0, 1, 1, 0), Refused(OutOfRange)),
            (Nest(0, 33, 1, 1, 0), Refused(OutOfRange)),
            (Nest(0, 255, 1, 1, 0), Refused(OutOfRange)),
            (Nest(0, 1, 0, 1, 0), Refused(OutOfRange)),
            (Nest(0, 1, 65, 1, 0), Refused(OutOfRange)),
            (Nest(0, 1, 255, 1, 0), Refused(OutOfRange)),
            (Nest(0, 0, 0, 1, 0), Refused(OutOfRange)),
            (Nest(0, 0, 64, 1, 0), Refused(OutOfRange)),
            (Nest(0, 32, 0, 1, 0), Refused(OutOfRange)),
            (Nest(0, 33, 64, 1, 0), Refused(OutOfRange)),
            (Nest(0, 32, 65, 1, 0), Refused(OutOfRange)),
            (Nest(0, 33, 65, 1, 0), Refused(OutOfRange)),
            (Nest(0, 32, 64, 1, 0), Number(1)),
        ],
        &[(32, 0, 1, 64), (1, 0, 0, 0)],
        &[(0, 0, 0, 32, 64, Inner(1))],
        &[],
    );
}

#[test]
fn columns_and_spacing(rt: HostRuntime) {
    check_run(
        &rt,
        (9, 9),
        &[
            (Start(4, 0), Done),
            (Row(0), Done),
            (Nest(0, 1, 1, 0, 0), Refused(OutOfRange)),
            (Nest(0, 1, 1, 33, 0), Refused(OutOfRange)),
            (Nest(0, 1, 1, 255, 8), Refused(OutOfRange)),
            (Nest(0, 1, 1, 1, 9), Refused(OutOfRange)),
            (Nest(0, 1, 1, 32, 255), Refused(OutOfRange)),
            (Nest(0, 1, 1, 0, 9), Refused(OutOfRange)),
            (Nest(0, 1, 1, 33, 9), Refused(OutOfRange)),
            (Nest(0, 0, 65, 33, 9), Refused(OutOfRange)),
            (Nest(0, 1, 1, 1, 0), Number(1)),
            (Nest(0, 1, 1, 1, 8), Number(2)),
            (Nest(0, 1, 1, 32, 0), Number(3)),
            (Nest(0, 1, 1, 32, 8), Number(4)),
        ],
        &[
            (4, 0, 1, 1),
            (1, 0, 0, 0),
            (1, 8, 0, 0),
            (32, 0, 0, 0),
            (32, 8, 0, 0),
        ],
        &[
            (0, 0, 0, 1, 1, Inner(1)),
            (0, 0, 1, 1, 1, Inner(2)),
            (0, 0, 2, 1, 1, Inner(3)),
            (0, 0, 3, 1, 1, Inner(4)),
        ],
        &[],
    );
}

#[test]
fn no_such_table(rt: HostRuntime) {
    check_run(
        &rt,
        (9, 9),
        &[
            (Nest(0, 1, 1, 1, 0), Refused(NotFound)),
            (Nest(usize::MAX, 1, 1, 1, 0), Refused(NotFound)),
            (Start(2, 0), Done),
            (Row(0), Done),
            (Nest(1, 1, 1, 1, 0), Refused(NotFound)),
            (Nest(64, 1, 1, 1, 0), Refused(NotFound)),
            (Nest(usize::MAX, 1, 1, 1, 0), Refused(NotFound)),
            (Nest(0, 1, 1, 3, 1), Number(1)),
            (Row(1), Done),
            (Nest(2, 1, 1, 1, 0), Refused(NotFound)),
            (Nest(1, 1, 1, 1, 0), Number(2)),
            (Nest(3, 1, 1, 1, 0), Refused(NotFound)),
        ],
        &[(2, 0, 1, 1), (3, 1, 1, 1), (1, 0, 0, 0)],
        &[(0, 0, 0, 1, 1, Inner(1)), (1, 0, 0, 1, 1, Inner(2))],
        &[],
    );
}

#[test]
fn before_the_first_row(rt: HostRuntime) {
    check_run(
        &rt,
        (3, 3),
        &[
            (Start(2, 0), Done),
            (Nest(0, 1, 1, 1, 0), Refused(NoRow)),
            (Nest(0, 2, 64, 1, 0), Refused(NoRow)),
            (Row(0), Done),
            (Nest(0, 1, 1, 3, 0), Number(1)),
            (Nest(1, 1, 1, 1, 0), Refused(NoRow)),
            (Nest(1, 3, 64, 1, 0), Refused(NoRow)),
            (Row(0), Done),
            (Nest(1, 1, 1, 1, 0), Refused(NoRow)),
            (Row(1), Done),
            (Nest(1, 3, 1, 7, 2), Number(2)),
            (Nest(2, 1, 1, 1, 0), Refused(NoRow)),
        ],
        &[(2, 0, 2, 2), (3, 0, 1, 1), (7, 2, 0, 0)],
        &[(0, 0, 0, 1, 1, Inner(1)), (1, 0, 0, 3, 1, Inner(2))],
        &[],
    );
}

// In row 1 the second column is taken from above, in row 2 the first, second and fourth.
#[test]
fn around_cells_from_above(rt: HostRuntime) {
    check_run(
        &rt,
        (8, 9),
        &[
            (Start(4, 0), Done),
            (Row(0), Done),
            (Nest(0, 1, 1, 1, 0), Number(1)),
            (Nest(0, 1, 3, 2, 0), Number(2)),
            (Nest(0, 3, 1, 9, 0), Refused(NoFreeColumns)),
            (Nest(0, 2, 1, 3, 0), Number(3)),
            (Nest(0, 1, 1, 9, 0), Refused(NoFreeColumns)),
            (Row(0), Done),
            (Nest(0, 2, 1, 9, 0), Refused(NoFreeColumns)),
            (Nest(0, 1, 2, 4, 0), Number(4)),
            (Nest(0, 3, 1, 9, 0), Refused(NoFreeColumns)),
            (Place(0, 5, 1, 1), Number(4)),
            (Nest(0, 1, 5, 5, 0), Number(5)),
            (Row(0), Done),
            (Nest(0, 2, 1, 9, 0), Refused(NoFreeColumns)),
            (Nest(0, 1, 1, 6, 0), Number(6)),
            (Nest(0, 1, 1, 9, 0), Refused(NoFreeColumns)),
        ],
        &[
            (4, 0, 3, 6),
            (1, 0, 0, 0),
            (2, 0, 0, 0),
            (3, 0, 0, 0),
            (4, 0, 0, 0),
            (5, 0, 0, 0),
            (6, 0, 0, 0),
        ],
        &[
            (0, 0, 0, 1, 1, Inner(1)),
            (0, 0, 1, 1, 3, Inner(2)),
            (0, 0, 2, 2, 1, Inner(3)),
            (0, 1, 0, 1, 2, Inner(4)),
            (0, 1, 2, 1, 1, Content(5)),
            (0, 1, 3, 1, 5, Inner(5)),
            (0, 2, 2, 1, 1, Inner(6)),
        ],
        &[],
    );
}

#[test]
fn wider_than_the_table(rt: HostRuntime) {
    check_run(
        &rt,
        (2, 2),
        &[
            (Start(3, 0), Done),
            (Row(0), Done),
            (Nest(0, 4, 1, 1, 0), Refused(NoFreeColumns)),
            (Nest(0, 32, 1, 1, 0), Refused(NoFreeColumns)),
            (Nest(0, 3, 1, 32, 0), Number(1)),
            (Row(1), Done),
            (Place(1, 5, 32, 1), Number(1)),
        ],
        &[(3, 0, 1, 1), (32, 0, 1, 1)],
        &[(0, 0, 0, 3, 1, Inner(1)), (1, 0, 0, 32, 1, Content(5))],
        &[],
    );
}

#[test]
fn past_row_63(rt: HostRuntime) {
    check_run(
        &rt,
        (5, 5),
        &[
            (Start(4, 0), Done),
            (Row(0), Done),
            (Nest(0, 1, 64, 1, 0), Number(1)),
            (Row(0), Done),
            (Nest(0, 1, 64, 1, 0), Refused(PastLastRow)),
            (Nest(0, 1, 63, 1, 0), Number(2)),
            (Rows(0, 62), Done),
            (Nest(0, 1, 2, 1, 0), Refused(PastLastRow)),
            (Nest(0, 1, 64, 1, 0), Refused(PastLastRow)),
            (Nest(0, 1, 1, 1, 0), Number(3)),
            (Row(3), Done),
            (Nest(3, 1, 64, 1, 0), Number(4)),
        ],
        &[
            (4, 0, 64, 64),
            (1, 0, 0, 0),
            (1, 0, 0, 0),
            (1, 0, 1, 64),
            (1, 0, 0, 0),
        ],
        &[
            (0, 0, 0, 1, 64, Inner(1)),
            (0, 1, 1, 1, 63, Inner(2)),
            (0, 63, 2, 1, 1, Inner(3)),
            (3, 0, 0, 1, 64, Inner(4)),
        ],
        &[],
    );
}

#[test]
fn a_full_list_of_cells(rt: HostRuntime) {
    check_run(
        &rt,
        (9, 2),
        &[
            (Start(4, 0), Done),
            (Row(0), Done),
            (Nest(0, 1, 1, 1, 0), Number(1)),
            (Place(0, 5, 1, 1), Number(1)),
            (Nest(0, 1, 1, 1, 0), Refused(Full)),
            (Nest(0, 2, 9, 1, 0), Refused(Full)),
            (Row(1), Done),
            (Nest(1, 1, 1, 1, 0), Refused(Full)),
        ],
        &[(4, 0, 1, 1), (1, 0, 1, 1)],
        &[(0, 0, 0, 1, 1, Inner(1)), (0, 0, 1, 1, 1, Content(5))],
        &[],
    );
}

// What is refused takes no columns: a content still goes there.
#[test]
fn a_full_list_of_tables(rt: HostRuntime) {
    check_run(
        &rt,
        (2, 9),
        &[
            (Start(4, 0), Done),
            (Row(0), Done),
            (Nest(0, 1, 1, 1, 0), Number(1)),
            (Nest(0, 1, 1, 1, 0), Refused(Full)),
            (Nest(0, 3, 9, 1, 0), Refused(Full)),
            (Place(0, 5, 1, 1), Number(1)),
            (Row(1), Done),
            (Nest(1, 1, 1, 1, 0), Refused(Full)),
            (Place(1, 6, 1, 1), Number(2)),
            (Nest(0, 1, 1, 1, 0), Refused(Full)),
            (Place(0, 7, 2, 1), Number(3)),
        ],
        &[(4, 0, 1, 1), (1, 0, 1, 1)],
        &[
            (0, 0, 0, 1, 1, Inner(1)),
            (0, 0, 1, 1, 1, Content(5)),
            (1, 0, 0, 1, 1, Content(6)),
            (0, 0, 2, 2, 1, Content(7)),
        ],
        &[],
    );
}

// place answers the number of its cell and nest that of its table.
#[test]
fn numbers_of_cells_and_tables(rt: HostRuntime) {
    check_run(
        &rt,
        (9, 9),
        &[
            (Start(6, 0), Done),
            (Row(0), Done),
            (Place(0, 10, 1, 1), Number(0)),
            (Nest(0, 1, 1, 1, 1), Number(1)),
            (Place(0, 11, 1, 1), Number(2)),
            (Place(0, 12, 1, 1), Number(3)),
            (Nest(0, 1, 1, 2, 2), Number(2)),
            (Nest(0, 1, 1, 3, 3), Number(3)),
        ],
        &[(6, 0, 1, 1), (1, 1, 0, 0), (2, 2, 0, 0), (3, 3, 0, 0)],
        &[
            (0, 0, 0, 1, 1, Content(10)),
            (0, 0, 1, 1, 1, Inner(1)),
            (0, 0, 2, 1, 1, Content(11)),
            (0, 0, 3, 1, 1, Content(12)),
            (0, 0, 4, 1, 1, Inner(2)),
            (0, 0, 5, 1, 1, Inner(3)),
        ],
        &[],
    );
}

#[test]
fn tables_in_tables(rt: HostRuntime) {
    check_run(
        &rt,
        (9, 9),
        &[
            (Start(1, 0), Done),
            (Row(0), Done),
            (Nest(0, 1, 1, 2, 1), Number(1)),
            (Row(1), Done),
            (Nest(1, 1, 1, 3, 2), Number(2)),
            (Nest(1, 1, 1, 4, 3), Number(3)),
            (Row(3), Done),
            (Nest(3, 4, 1, 5, 4), Number(4)),
            (Row(2), Done),
            (Place(2, 9, 3, 2), Number(4)),
            (Nest(4, 1, 1, 1, 0), Refused(NoRow)),
            (Rows(4, 2), Done),
            (Nest(4, 5, 1, 6, 5), Number(5)),
            (Row(0), Done),
            (Nest(0, 1, 2, 7, 6), Number(6)),
        ],
        &[
            (1, 0, 2, 3),
            (2, 1, 1, 1),
            (3, 2, 1, 2),
            (4, 3, 1, 1),
            (5, 4, 2, 2),
            (6, 5, 0, 0),
            (7, 6, 0, 0),
        ],
        &[
            (0, 0, 0, 1, 1, Inner(1)),
            (1, 0, 0, 1, 1, Inner(2)),
            (1, 0, 1, 1, 1, Inner(3)),
            (3, 0, 0, 4, 1, Inner(4)),
            (2, 0, 0, 3, 2, Content(9)),
            (4, 1, 0, 5, 1, Inner(5)),
            (0, 1, 0, 1, 2, Inner(6)),
        ],
        &[],
    );
}
