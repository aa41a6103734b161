// Shelves of texts and of blocks that stand in a file, which they read and do not copy.
#![tactic(auto)]

mod fill;
pub mod place;
mod query;
mod rows;
mod scan;
pub mod shelves;
mod survey;
pub mod words;
