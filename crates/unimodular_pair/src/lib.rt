//! Pairs of square whole matrices that are each other's inverse, and their completion from a first row.
#![tactic(auto)]

mod choice;
mod columns;
mod complete;
mod gathering;
mod nearest;
mod pair;
mod rows;
mod step;
mod stop;

pub use choice::{first_nonzero, next_pair};
pub use columns::{column_stays, lower_column};
pub use nearest::nearest_factor;
pub use pair::Pair;
pub use step::{Step, Steps};
pub use stop::CompleteStop;
