//! The frames of a node's slices, and why a slice has none.
#![tactic(auto)]

mod outcome;
mod slices;

pub use outcome::{SliceFrame, Sliced};
pub use slices::slice_frame;
