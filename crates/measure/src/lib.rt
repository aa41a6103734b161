// How wide the columns of a table are and how tall its rows, given what its cells ask.
#![tactic(auto)]

pub mod ask;
mod column;
mod pass;
mod span;
mod sweep;
pub mod table;
mod width;
