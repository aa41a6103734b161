// Shelves over shelves: two joined into one, and a margin of blanks or of lines around every content.
#![tactic(auto)]

pub mod frame;
pub mod joined;
pub mod margin;
pub mod padding;
