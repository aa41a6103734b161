// Calls as values, so that a test is a table of them with their answers.
use engine::Sheet;
use fault::{Fault, Reason};

// A call with what it is passed.
#[derive(Clone, Copy)]
pub(crate) enum Step {
    // columns, spacing
    Start(u8, u8),
    // table
    Row(usize),
    // table; so many rows, one after the other
    Rows(usize, u8),
    // table, content, columns across, rows down
    Place(usize, u16, u8, u8),
    // table, columns across, rows down, columns and spacing of the new table
    Nest(usize, u8, u8, u8, u8),
    // table, column, width
    Width(usize, usize, u16),
}

// What a call answers. A refusal names no place unless it is so said. An enum of its own, as tables of cases are written in these words:
// `Ok(None)` would not say that a call is done.
#[derive(Clone, Copy, PartialEq, Debug)]
pub(crate) enum Answer {
    Done,
    Number(usize),
    Refused(Reason),
    RefusedAt(Reason, usize),
}

impl Answer {
    pub(crate) fn is_refusal(self) -> bool {
        matches!(self, Answer::Refused(_) | Answer::RefusedAt(_, _))
    }
}

impl From<Fault> for Answer {
    fn from(fault: Fault) -> Answer {
        match fault.place {
            0 => Answer::Refused(fault.reason),
            place => Answer::RefusedAt(fault.reason, place),
        }
    }
}

impl From<Result<Option<usize>, Fault>> for Answer {
    fn from(answer: Result<Option<usize>, Fault>) -> Answer {
        match answer {
            Ok(None) => Answer::Done,
            Ok(Some(n)) => Answer::Number(n),
            Err(fault) => Answer::from(fault),
        }
    }
}

// Carries out the call.
pub(crate) fn carry_out(sheet: &mut Sheet, step: Step) -> Answer {
    let answer = match step {
        Step::Start(count, spacing) => sheet.start(count, spacing).map(|()| None),
        Step::Row(t) => sheet.row(t).map(|()| None),
        Step::Rows(t, n) => rows(sheet, t, n).map(|()| None),
        Step::Place(t, content, across, down) => sheet.place(t, content, across, down).map(Some),
        Step::Nest(t, across, down, count, spacing) => {
            sheet.nest(t, across, down, count, spacing).map(Some)
        }
        Step::Width(t, j, width) => sheet.width(t, j, width).map(|()| None),
    };
    Answer::from(answer)
}

// Begins rows up to the first that is refused.
fn rows(sheet: &mut Sheet, t: usize, n: u8) -> Result<(), Fault> {
    for _ in 0..n {
        sheet.row(t)?;
    }
    Ok(())
}
