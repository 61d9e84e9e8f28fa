//! Tests of the crates of exact numbers, vectors and lattices.
#![tactic(auto)]

#[cfg(test)]
mod fractions;
#[cfg(test)]
mod frames;
#[cfg(test)]
mod lattices;
#[cfg(test)]
mod lifting;
#[cfg(test)]
mod maps;
#[cfg(test)]
mod pairs;
#[cfg(test)]
mod vectors;
