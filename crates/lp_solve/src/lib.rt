//! The exact simplex, with multipliers that show each answer.
#![tactic(auto)]

mod answer;
mod finish;
mod search;
mod signs;
mod solve;

pub use answer::{Ended, LpExcuse, LpStop, Pivots, Point, Solved, Weights};
pub use solve::{minimise, minimise_with_pivots};
