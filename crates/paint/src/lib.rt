// The lines of a page, with every content in its box.
#![tactic(auto)]

mod band;
mod check;
