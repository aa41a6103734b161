// Beginning rows.
use crate::sheets::*;
use crate::steps::Answer::*;
use crate::steps::Step::*;
use fault::Reason::*;
use plan::Holds::*;

#[test]
fn no_such_table(rt: HostRuntime) {
    check_run(
        &rt,
        (9, 9),
        &[
            (Row(0), Refused(NotFound)),
            (Row(1), Refused(NotFound)),
            (Row(usize::MAX), Refused(NotFound)),
            (Start(2, 0), Done),
            (Row(1), Refused(NotFound)),
            (Row(63), Refused(NotFound)),
            (Row(usize::MAX), Refused(NotFound)),
            (Row(0), Done),
            (Row(1), Refused(NotFound)),
            (Nest(0, 1, 1, 1, 0), Number(1)),
            (Row(1), Done),
            (Row(2), Refused(NotFound)),
        ],
        &[(2, 0, 1, 1), (1, 0, 1, 1)],
        &[(0, 0, 0, 1, 1, Inner(1))],
        &[],
    );
}

// 64 rows are begun one after the other, and then none more.
#[test]
fn as_many_as_64(rt: HostRuntime) {
    let mut cases = [(Row(0), Done); 67];
    cases[0] = (Start(5, 1), Done);
    cases[65] = (Row(0), Refused(PastLastRow));
    cases[66] = (Row(0), Refused(PastLastRow));
    check_run(&rt, (1, 1), &cases, &[(5, 1, 64, 64)], &[], &[]);
    for n in 0..64 {
        check_run(
            &rt,
            (1, 1),
            &[(Start(5, 1), Done), (Rows(0, n), Done)],
            &[(5, 1, n, n)],
            &[],
            &[],
        );
    }
}

// The rows that a cell reaches count once they are begun, and not twice.
#[test]
fn rows_reached_by_a_cell(rt: HostRuntime) {
    check_run(
        &rt,
        (1, 2),
        &[
            (Start(2, 0), Done),
            (Row(0), Done),
            (Place(0, 0, 1, 3), Number(0)),
            (Row(0), Done),
        ],
        &[(2, 0, 2, 3)],
        &[(0, 0, 0, 1, 3, Content(0))],
        &[],
    );
    check_run(
        &rt,
        (1, 2),
        &[
            (Start(2, 0), Done),
            (Row(0), Done),
            (Place(0, 0, 1, 3), Number(0)),
            (Place(0, 1, 1, 2), Number(1)),
            (Rows(0, 3), Done),
        ],
        &[(2, 0, 4, 4)],
        &[(0, 0, 0, 1, 3, Content(0)), (0, 0, 1, 1, 2, Content(1))],
        &[],
    );
}

#[test]
fn all_rows_reached_by_a_cell(rt: HostRuntime) {
    check_run(
        &rt,
        (1, 2),
        &[
            (Start(1, 0), Done),
            (Row(0), Done),
            (Place(0, 0, 1, 64), Number(0)),
            (Rows(0, 63), Done),
            (Place(0, 0, 1, 1), Refused(NoFreeColumns)),
            (Row(0), Refused(PastLastRow)),
        ],
        &[(1, 0, 64, 64)],
        &[(0, 0, 0, 1, 64, Content(0))],
        &[],
    );
}

// Each table has rows of its own, whatever those of the other are.
#[test]
fn rows_of_two_tables(rt: HostRuntime) {
    check_run(
        &rt,
        (2, 3),
        &[
            (Start(1, 0), Done),
            (Rows(0, 64), Done),
            (Nest(0, 1, 1, 3, 2), Number(1)),
            (Row(0), Refused(PastLastRow)),
            (Rows(1, 2), Done),
            (Row(0), Refused(PastLastRow)),
            (Place(1, 8, 2, 5), Number(1)),
            (Rows(1, 62), Done),
            (Row(1), Refused(PastLastRow)),
            (Place(1, 9, 3, 1), Number(2)),
        ],
        &[(1, 0, 64, 64), (3, 2, 64, 64)],
        &[
            (0, 63, 0, 1, 1, Inner(1)),
            (1, 1, 0, 2, 5, Content(8)),
            (1, 63, 0, 3, 1, Content(9)),
        ],
        &[],
    );
}
