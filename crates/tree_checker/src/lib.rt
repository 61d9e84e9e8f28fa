//! The checker of proof texts.
#![tactic(auto)]

mod claim;
mod closing;
mod judge;
mod laws;
mod node;
mod opening;
mod stack;
mod step;
mod text;
mod verdict;

pub use laws::{accepted_by_lines, accepted_is_true, one_verdict};
pub use text::check;
pub use verdict::{Reject, RejectKind, Verdict};
