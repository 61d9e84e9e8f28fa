//! The split of a root whose equalities have no integer solution, without a slice.
#![tactic(auto)]

mod corner;
mod ends;
mod form;
mod lines;
mod moves;
mod outcome;

pub use moves::gap_move;
pub use outcome::GapMove;
