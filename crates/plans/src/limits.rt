// Lists of every room, and the most cells and tables that a sheet can have.
use crate::sheets::*;
use crate::sights::*;
use crate::steps::Answer::*;
use crate::steps::Step::*;
use crate::steps::*;
use engine::Sheet;
use fault::Reason::*;
use plan::Holds::*;
use plan::{Cell, Table};
use std::array;
use std::process::Abort;

// Call k of those that fill 33 rows of 32 columns with contents, one in each place, where only so many cells find room. The last call
// nests a table, in a row that is then still empty.
fn filling(k: usize, most: usize) -> (Step, Answer) {
    if k == 0 {
        return (Start(32, 0), Done);
    }
    if k == 1090 {
        return (Nest(0, 1, 1, 1, 0), Refused(Full));
    }
    let row = (k - 1) / 33;
    let j = (k - 1) % 33;
    if j == 0 {
        return (Row(0), Done);
    }
    placing(row * 32 + j - 1, most)
}

fn placing(i: usize, most: usize) -> (Step, Answer) {
    let answer = if i < most { Number(i) } else { Refused(Full) };
    (Place(0, (i % 1000) as u16, 1, 1), answer)
}

fn fillings(most: usize) -> [(Step, Answer); 1091] {
    array::from_fn(|k| filling(k, most))
}

fn filled() -> [CellSeen; 1024] {
    array::from_fn(|i| (
        0,
        (i / 32) as u8,
        (i % 32) as u8,
        1,
        1,
        Content((i % 1000) as u16),
    ))
}

// With room for so many cells, so many are placed: at most 1,024.
fn check_filling(rt: &impl Abort, room: usize, most: usize) {
    assert!(rt; most <= 1024);
    check_run(
        rt,
        (2, room),
        &fillings(most),
        &[(32, 0, 33, 33)],
        &filled()[0..most],
        &[],
    );
}

#[test]
fn rooms_for_cells(rt: HostRuntime) {
    for (room, most) in [
        (0, 0),
        (1, 1),
        (2, 2),
        (31, 31),
        (32, 32),
        (33, 33),
        (1023, 1023),
        (1024, 1024),
        (1025, 1024),
        (1030, 1024),
    ] {
        check_filling(&rt, room, most);
    }
}

fn columns(t: usize) -> u8 {
    (t % 32 + 1) as u8
}

fn spacing(t: usize) -> u8 {
    (t % 9) as u8
}

// Call k of those that nest each table in the one before it, where only so many tables find room.
fn nesting(k: usize, most: usize) -> (Step, Answer) {
    if k == 0 {
        return (Start(columns(0), spacing(0)), Done);
    }
    let t = (k - 1) / 2;
    let step = if k % 2 == 1 {
        Row(t)
    } else {
        Nest(t, 1, 1, columns(t + 1), spacing(t + 1))
    };
    let answer = if t >= most {
        Refused(NotFound)
    } else if k % 2 == 1 {
        Done
    } else if t + 1 == most {
        Refused(Full)
    } else {
        Number(t + 1)
    };
    (step, answer)
}

fn nestings(most: usize) -> [(Step, Answer); 135] {
    array::from_fn(|k| nesting(k, most))
}

fn nested_tables() -> [TableSeen; 64] {
    array::from_fn(|t| (columns(t), spacing(t), 1, 1))
}

fn nested_cells() -> [CellSeen; 64] {
    array::from_fn(|t| (t, 0, 0, 1, 1, Inner(t + 1)))
}

// With room for so many tables, so many are nested in one another: at most 64.
fn check_nesting(rt: &impl Abort, room: usize, most: usize) {
    assert!(rt; 1 <= most && most <= 64);
    check_run(
        rt,
        (room, 70),
        &nestings(most),
        &nested_tables()[0..most],
        &nested_cells()[0..most - 1],
        &[],
    );
}

#[test]
fn rooms_for_tables(rt: HostRuntime) {
    for (room, most) in [
        (1, 1),
        (2, 2),
        (3, 3),
        (63, 63),
        (64, 64),
        (65, 64),
        (66, 64),
    ] {
        check_nesting(&rt, room, most);
    }
}

// Call k of those that nest tables side by side in two rows of 32 columns, and then place a content.
fn lining_up(k: usize) -> (Step, Answer) {
    match k {
        0 => (Start(32, 0), Done),
        1 | 34 => (Row(0), Done),
        2..=33 => (Nest(0, 1, 1, 1, 0), Number(k - 1)),
        35..=65 => (Nest(0, 1, 1, 1, 0), Number(k - 2)),
        66 => (Nest(0, 1, 1, 1, 0), Refused(Full)),
        _ => (Place(0, 5, 1, 1), Number(63)),
    }
}

fn all_lining_up() -> [(Step, Answer); 68] {
    array::from_fn(lining_up)
}

fn lined_up() -> [CellSeen; 64] {
    array::from_fn(|i| {
        let holds = if i == 63 { Content(5) } else { Inner(i + 1) };
        (0, (i / 32) as u8, (i % 32) as u8, 1, 1, holds)
    })
}

// 63 tables side by side in table 0 are as many as there can be. A content still goes there.
#[test]
fn tables_side_by_side(rt: HostRuntime) {
    let mut tables = [(1, 0, 0, 0); 64];
    tables[0] = (32, 0, 2, 2);
    check_run(&rt, (66, 1030), &all_lining_up(), &tables, &lined_up(), &[]);
}

// Numbers far past the last table and the last cell are those of none.
#[test]
fn far_numbers(rt: HostRuntime) {
    let mut tables = [Table::new(9, 9); 1];
    let mut cells = [Cell::blank(); 1];
    let mut sheet = Sheet::new(&mut tables, &mut cells);
    assert_eq!(rt; carry_out(&mut sheet, Start(1, 0)), Done);
    for n in [1, 2, 64, 1024, 65536, usize::MAX] {
        assert!(rt; sheet.table(n).is_none() && sheet.cell(n).is_none());
    }
}
