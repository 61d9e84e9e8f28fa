//! The search by slices of single columns: the move of a node, which always stands.
#![tactic(auto)]

mod items;
mod lines;
mod moves;
mod node;
mod refute;
mod side;
mod single;

pub use moves::plain_move;
pub use sequence::NoMemory;
