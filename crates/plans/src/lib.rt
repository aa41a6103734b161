// Tests alone: sheets are built call by call, and every answer and all that a sheet then holds is held to what the rules give, and every refusal to its number.
#![tactic(auto)]

#[cfg(test)]
mod limits;
#[cfg(test)]
mod nests;
#[cfg(test)]
mod numbers;
#[cfg(test)]
mod orders;
#[cfg(test)]
mod places;
#[cfg(test)]
mod roomy;
#[cfg(test)]
mod rows;
#[cfg(test)]
mod sheets;
#[cfg(test)]
mod sights;
#[cfg(test)]
mod starts;
#[cfg(test)]
mod steps;
#[cfg(test)]
mod tight;
#[cfg(test)]
mod widths;
