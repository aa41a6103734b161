// A sheet of nested tables in memory that the caller lends, and the calls that build it.
#![tactic(auto)]

mod calls;
mod hold;
mod laid;

pub use hold::Sheet;
