// Tests alone: tags are read, and what each says is held to what its bytes spell.
#![tactic(auto)]

#[cfg(test)]
mod form;
#[cfg(test)]
mod reading;
#[cfg(test)]
mod values;
