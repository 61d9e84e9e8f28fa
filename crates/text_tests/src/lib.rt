//! Tests of the crates of desks, model texts and models.
#![tactic(auto)]

#[cfg(test)]
mod desks;
#[cfg(test)]
mod fields;
#[cfg(test)]
mod integer_rows;
#[cfg(test)]
mod readings;
#[cfg(test)]
mod writings;
