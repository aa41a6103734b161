// Fixing the widths of columns.
use crate::sheets::*;
use crate::steps::Answer::*;
use crate::steps::Step::*;
use fault::Reason::*;
use plan::Holds::*;

#[test]
fn the_range(rt: HostRuntime) {
    check_run(
        &rt,
        (1, 1),
        &[
            (Start(5, 0), Done),
            (Width(0, 0, 1001), Refused(OutOfRange)),
            (Width(0, 0, 65535), Refused(OutOfRange)),
            (Width(0, 1, 0), Done),
            (Width(0, 2, 1), Done),
            (Width(0, 3, 1000), Done),
            (Width(0, 3, 1001), Refused(OutOfRange)),
            (Width(0, 4, 999), Done),
        ],
        &[(5, 0, 0, 0)],
        &[],
        &[(0, 2, 1), (0, 3, 1000), (0, 4, 999)],
    );
}

#[test]
fn no_such_table_or_column(rt: HostRuntime) {
    check_run(
        &rt,
        (2, 1),
        &[
            (Width(0, 0, 5), Refused(NotFound)),
            (Width(usize::MAX, 0, 5), Refused(NotFound)),
            (Start(3, 0), Done),
            (Width(1, 0, 5), Refused(NotFound)),
            (Width(64, 0, 5), Refused(NotFound)),
            (Width(usize::MAX, 0, 5), Refused(NotFound)),
            (Width(0, 3, 5), Refused(NotFound)),
            (Width(0, 31, 5), Refused(NotFound)),
            (Width(0, 32, 5), Refused(NotFound)),
            (Width(0, 255, 5), Refused(NotFound)),
            (Width(0, usize::MAX, 5), Refused(NotFound)),
            (Width(0, 3, 0), Refused(NotFound)),
            (Width(0, 2, 5), Done),
        ],
        &[(3, 0, 0, 0)],
        &[],
        &[(0, 2, 5)],
    );
}

#[test]
fn the_last_column(rt: HostRuntime) {
    check_run(
        &rt,
        (1, 1),
        &[
            (Start(1, 0), Done),
            (Width(0, 1, 7), Refused(NotFound)),
            (Width(0, 0, 8), Done),
        ],
        &[(1, 0, 0, 0)],
        &[],
        &[(0, 0, 8)],
    );
    check_run(
        &rt,
        (1, 1),
        &[
            (Start(32, 0), Done),
            (Width(0, 32, 7), Refused(NotFound)),
            (Width(0, 31, 8), Done),
            (Width(0, 0, 9), Done),
        ],
        &[(32, 0, 0, 0)],
        &[],
        &[(0, 31, 8), (0, 0, 9)],
    );
}

#[test]
fn fixed_and_freed(rt: HostRuntime) {
    check_run(
        &rt,
        (1, 1),
        &[
            (Start(6, 0), Done),
            (Width(0, 0, 10), Done),
            (Width(0, 1, 11), Done),
            (Width(0, 2, 12), Done),
            (Width(0, 3, 13), Done),
            (Width(0, 4, 0), Done),
            (Width(0, 1, 0), Done),
            (Width(0, 2, 20), Done),
            (Width(0, 3, 0), Done),
            (Width(0, 3, 30), Done),
            (Width(0, 0, 10), Done),
            (Width(0, 0, 1001), Refused(OutOfRange)),
            (Width(0, 1, 0), Done),
        ],
        &[(6, 0, 0, 0)],
        &[],
        &[(0, 0, 10), (0, 2, 20), (0, 3, 30)],
    );
    check_run(
        &rt,
        (1, 1),
        &[
            (Start(2, 0), Done),
            (Width(0, 0, 10), Done),
            (Width(0, 1, 1000), Done),
            (Width(0, 1, 0), Done),
            (Width(0, 0, 0), Done),
        ],
        &[(2, 0, 0, 0)],
        &[],
        &[],
    );
}

// Each table has columns of its own, and they stay as they are when rows begin and cells come.
#[test]
fn columns_of_two_tables(rt: HostRuntime) {
    check_run(
        &rt,
        (3, 9),
        &[
            (Start(2, 1), Done),
            (Width(0, 1, 50), Done),
            (Row(0), Done),
            (Nest(0, 2, 2, 3, 2), Number(1)),
            (Width(1, 2, 60), Done),
            (Width(0, 2, 60), Refused(NotFound)),
            (Width(1, 3, 60), Refused(NotFound)),
            (Row(1), Done),
            (Place(1, 5, 3, 1), Number(1)),
            (Width(1, 0, 70), Done),
            (Rows(0, 2), Done),
            (Nest(0, 1, 1, 1, 0), Number(2)),
            (Width(2, 0, 80), Done),
            (Width(1, 2, 61), Done),
        ],
        &[(2, 1, 3, 3), (3, 2, 1, 1), (1, 0, 0, 0)],
        &[
            (0, 0, 0, 2, 2, Inner(1)),
            (1, 0, 0, 3, 1, Content(5)),
            (0, 2, 0, 1, 1, Inner(2)),
        ],
        &[(0, 1, 50), (1, 2, 61), (1, 0, 70), (2, 0, 80)],
    );
}
