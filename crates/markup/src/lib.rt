// Tags: their names, their attributes, and their form.
#![tactic(auto)]

mod record;
mod spans;
mod tags;
mod values;

pub use record::{Attribute, CellTag, Name, TableTag, Tag};
pub use tags::read_tag;
