// Making table 0.
use crate::sheets::*;
use crate::steps::Answer;
use crate::steps::Answer::*;
use crate::steps::Step::*;
use fault::Reason::*;
use plan::Holds::*;
use std::process::Abort;

// Each start of that many columns and that spacing, on a sheet of its own, is answered so.
fn check_starts(rt: &impl Abort, cases: &[(u8, u8, Answer)]) {
    for (count, spacing, answer) in cases {
        check_start(rt, *count, *spacing, *answer);
    }
}

fn check_start(rt: &impl Abort, count: u8, spacing: u8, answer: Answer) {
    let cases = [(Start(count, spacing), answer)];
    match answer {
        Done => check_run(rt, (1, 1), &cases, &[(count, spacing, 0, 0)], &[], &[]),
        _ => check_run(rt, (1, 1), &cases, &[], &[], &[]),
    }
}

#[test]
fn columns_and_spacing(rt: HostRuntime) {
    check_starts(
        &rt,
        &[
            (0, 0, Refused(OutOfRange)),
            (0, 8, Refused(OutOfRange)),
            (0, 9, Refused(OutOfRange)),
            (0, 255, Refused(OutOfRange)),
            (1, 0, Done),
            (1, 8, Done),
            (1, 9, Refused(OutOfRange)),
            (1, 255, Refused(OutOfRange)),
            (32, 0, Done),
            (32, 8, Done),
            (32, 9, Refused(OutOfRange)),
            (32, 255, Refused(OutOfRange)),
            (33, 0, Refused(OutOfRange)),
            (33, 8, Refused(OutOfRange)),
            (33, 9, Refused(OutOfRange)),
            (33, 255, Refused(OutOfRange)),
            (255, 0, Refused(OutOfRange)),
            (255, 8, Refused(OutOfRange)),
            (255, 9, Refused(OutOfRange)),
            (255, 255, Refused(OutOfRange)),
        ],
    );
}

// Refused starts do not start a sheet.
#[test]
fn after_refusals(rt: HostRuntime) {
    check_run(
        &rt,
        (1, 1),
        &[
            (Start(0, 0), Refused(OutOfRange)),
            (Start(33, 8), Refused(OutOfRange)),
            (Start(4, 9), Refused(OutOfRange)),
            (Row(0), Refused(NotFound)),
            (Start(4, 8), Done),
            (Row(0), Done),
            (Place(0, 5, 4, 1), Number(0)),
        ],
        &[(4, 8, 1, 1)],
        &[(0, 0, 0, 4, 1, Content(5))],
        &[],
    );
}

#[test]
fn twice(rt: HostRuntime) {
    check_run(
        &rt,
        (3, 1),
        &[
            (Start(3, 2), Done),
            (Start(3, 2), Refused(AlreadyStarted)),
            (Start(1, 0), Refused(AlreadyStarted)),
            (Start(32, 8), Refused(AlreadyStarted)),
            (Row(0), Done),
            (Place(0, 5, 1, 1), Number(0)),
            (Start(3, 2), Refused(AlreadyStarted)),
            (Row(0), Done),
            (Start(4, 0), Refused(AlreadyStarted)),
        ],
        &[(3, 2, 2, 2)],
        &[(0, 0, 0, 1, 1, Content(5))],
        &[],
    );
}

// With no room for a table the sheet stays empty, and no table is there for any call.
#[test]
fn no_room_for_a_table(rt: HostRuntime) {
    check_run(
        &rt,
        (0, 3),
        &[
            (Start(1, 0), Refused(Full)),
            (Start(32, 8), Refused(Full)),
            (Start(1, 0), Refused(Full)),
            (Row(0), Refused(NotFound)),
            (Place(0, 0, 1, 1), Refused(NotFound)),
            (Nest(0, 1, 1, 1, 0), Refused(NotFound)),
            (Width(0, 0, 1), Refused(NotFound)),
        ],
        &[],
        &[],
        &[],
    );
}

#[test]
fn no_calls(rt: HostRuntime) {
    check_run(&rt, (0, 0), &[], &[], &[], &[]);
    check_run(&rt, (66, 1030), &[], &[], &[], &[]);
}

// A table needs no room for cells.
#[test]
fn no_room_for_a_cell(rt: HostRuntime) {
    check_run(
        &rt,
        (1, 0),
        &[
            (Start(2, 1), Done),
            (Row(0), Done),
            (Place(0, 0, 1, 1), Refused(Full)),
            (Nest(0, 1, 1, 1, 0), Refused(Full)),
            (Width(0, 1, 9), Done),
        ],
        &[(2, 1, 1, 1)],
        &[],
        &[(0, 1, 9)],
    );
}
