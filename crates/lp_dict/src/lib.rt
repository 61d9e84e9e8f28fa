//! Dictionaries of systems of inequalities over fractions, and their pivots.
#![tactic(auto)]

mod dict;
mod first;
mod pivot;
mod system;

pub use dict::Dict;
pub use system::{Limits, System};
