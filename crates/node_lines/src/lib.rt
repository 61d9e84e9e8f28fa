//! Lines that refute a node, or an end of a form there, from multipliers of the node's system.
#![tactic(auto)]

mod halt;
mod lines;
mod node;

pub use halt::LineHalt;
pub use lines::{empty_line, end_line, line_of};
pub use node::Node;
