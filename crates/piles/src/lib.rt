// Tests alone: texts and blocks are set bare and under piles of layers, and every line is held to the page that the rules give.
#![tactic(auto)]

#[cfg(test)]
mod blocks;
#[cfg(test)]
mod files;
#[cfg(test)]
mod joins;
#[cfg(test)]
mod margins;
#[cfg(test)]
mod pages;
#[cfg(test)]
mod pile;
#[cfg(test)]
mod refusals;
#[cfg(test)]
mod texts;
#[cfg(test)]
mod towers;
