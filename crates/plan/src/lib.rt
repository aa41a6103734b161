// The plan of a sheet: tables of columns and rows, and the cells that stand in them.
#![tactic(auto)]

mod calls;
mod record;
mod span;
mod taken;

pub use calls::{begin_row, fix_width, nest_table, place_content, start_table};
pub use record::{Axis, Cell, Column, Holds, ROWS, Rect, Sizing, Table};
pub use taken::Taken;
