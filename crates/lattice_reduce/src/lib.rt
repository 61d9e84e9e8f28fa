//! Lattice reduction in whole numbers: a basis, its reduced basis, and the pair between them.
#![tactic(auto)]

mod beside;
mod conditions;
mod copies;
mod division;
mod exchange;
mod lattice;
mod numbers;
mod reduction;

pub use beside::{ReducedBeside, reduce_beside};
pub use lattice::{ReduceExcuse, ReduceStop, Reduced, reduce};
