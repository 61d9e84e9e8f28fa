//! Search trees that show what a search found.
#![tactic(auto)]

mod brancher;
mod judge;
mod laws;
mod steps;
mod tree;
mod walk;
mod whole;

pub use brancher::Brancher;
pub use judge::holds;
pub use laws::holding_tree_is_sound;
pub use sequence::NoMemory;
pub use tree::{Cut, Forest, Mark, Move, PartSplit, PartTree, Searched, Split, Tree};
pub use walk::search;
