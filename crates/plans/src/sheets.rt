// How a test holds what a sheet tells to what it should.
use crate::sights::*;
use crate::steps::*;
use engine::Sheet;
use plan::{Cell, Table};
use std::fmt::Debug;
use std::process::Abort;

// Room for more tables and cells than a sheet can have. Arrays, as a sheet's memory is lent; a case says how much of it.
pub(crate) const TABLE_ROOM: usize = 66;

pub(crate) const CELL_ROOM: usize = 1030;

// An empty sheet over so many of the places for tables and for cells. The two numbers are a tuple, since tests write them by hand.
pub(crate) fn sheet_over<'t, 'c>(
    tables: &'t mut [Table],
    cells: &'c mut [Cell],
    rooms: (usize, usize),
) -> Sheet<'t, 'c> {
    let table_room = rooms.0.min(tables.len());
    let cell_room = rooms.1.min(cells.len());
    Sheet::new(&mut tables[0..table_room], &mut cells[0..cell_room])
}

// A sheet with room for so many tables and cells answers the calls so, and then holds these tables and cells. No column is fixed but
// these. Each list is of a type of its own, so that none can be passed in the place of another.
pub(crate) fn check_run(
    rt: &impl Abort,
    rooms: (usize, usize),
    cases: &[(Step, Answer)],
    tables: &[TableSeen],
    cells: &[CellSeen],
    fixed: &[Fixed],
) {
    let mut table_places = [Table::new(9, 9); TABLE_ROOM];
    let mut cell_places = [Cell::blank(); CELL_ROOM];
    let mut sheet = sheet_over(&mut table_places, &mut cell_places, rooms);
    check_cases(rt, &mut sheet, rooms, cases);
    assert_eq!(rt;
        (sheet.table_count(), sheet.cell_count()),
        (tables.len(), cells.len())
    );
    check_each(
        rt,
        TABLE_ROOM,
        |t| sheet.table(t).map(parts_of),
        |t| expected_table(tables, fixed, t),
    );
    check_each(
        rt,
        CELL_ROOM,
        |i| sheet.cell(i),
        |i| expected_cell(cells, i),
    );
}

// The sheet answers the calls so. Another sheet is spared the calls that are refused, and both tell the same throughout.
fn check_cases(
    rt: &impl Abort,
    sheet: &mut Sheet,
    rooms: (usize, usize),
    cases: &[(Step, Answer)],
) {
    let mut table_places = [Table::new(7, 7); TABLE_ROOM];
    let mut cell_places = [Cell::blank(); CELL_ROOM];
    let mut other = sheet_over(&mut table_places, &mut cell_places, rooms);
    for (i, (step, answer)) in cases.iter().enumerate() {
        check_case(rt, sheet, &mut other, i, *step, *answer);
    }
}

fn check_case(
    rt: &impl Abort,
    sheet: &mut Sheet,
    other: &mut Sheet,
    i: usize,
    step: Step,
    answer: Answer,
) {
    assert_eq!(rt; carry_out(sheet, step), answer, "call {i}");
    if !answer.is_refusal() {
        assert_eq!(rt; carry_out(other, step), answer, "call {i}");
    }
    assert!(rt; !sheet.is_laid(), "call {i}");
    assert!(rt; tell_the_same(sheet, other), "call {i}");
}

fn tell_the_same(sheet: &Sheet, other: &Sheet) -> bool {
    sheet.table_count() == other.table_count()
        && sheet.cell_count() == other.cell_count()
        && (0..sheet.table_count()).all(|t| sheet.table(t) == other.table(t))
        && (0..sheet.cell_count()).all(|i| sheet.cell(i) == other.cell(i))
}

// What is seen under each number is what should be there, and nothing where nothing should be.
fn check_each<T: PartialEq + Debug + Drop, S: Fn(usize) -> Option<T>, E: Fn(usize) -> Option<T>>(
    rt: &impl Abort,
    room: usize,
    seen: S,
    expected: E,
)
    requires seen { S.IsAlwaysCallable seen }
    requires expected { E.IsAlwaysCallable expected }
{
    for i in 0..room {
        assert_eq!(rt; seen(i), expected(i), "{i}");
    }
}
