//! Lines: combinations of a node's inequalities that show that no point is there.
#![tactic(auto)]

mod fracs;
mod judge;
mod laws;
mod line;
mod node;
mod path;
mod side;

pub use fracs::{CutFrac, FracUse, LineStop, OriginalTimes, from_fracs};
pub use judge::{comes_to_negative, refutes, refutes_parts, weigh, weigh_parts};
pub use laws::refuted_node_has_no_point;
pub use line::{CutUse, End, Line, Use, Uses, Weight};
pub use node::has_side;
pub use path::{Path, Slice};
pub use sequence::NoMemory;
