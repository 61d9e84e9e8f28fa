//! A dictionary of a linear program over variables with ranges, in whole numbers of 64 bits: fast, and checked by others.
#![tactic(auto)]

mod answer;
mod dict;
mod divisor;
mod first;
mod number;
mod range;
mod solve;
mod steps;
mod stop;
mod table;

pub use answer::{Extreme, Met, Vertex};
pub use dict::RangeDict;
pub use stop::RangeStop;
