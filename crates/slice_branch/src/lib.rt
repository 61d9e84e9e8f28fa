//! The search by reformulation: a node's integer points are those of a frame, and it is split along thin directions of it.
#![tactic(auto)]

mod brancher;
mod check;
mod exact;
mod place;
mod roots;
mod settled;
mod shown;
mod slices;
mod work;

pub use brancher::SliceBrancher;
pub use place::{Node, Place, Settled};
