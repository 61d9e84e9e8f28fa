//! What a node's fast programs find: a line that refutes it, a better point, or a direction along which it is thin. They are
//! linear programs over a dictionary of 64 bits, and only a point is checked here: whoever uses the rest checks it.
#![tactic(auto)]

mod directions;
mod forms;
mod found;
mod halt;
mod model;
mod numbers;
mod points;
mod programs;

pub use directions::ends::Direction;
pub use forms::row_forms::row_forms;
pub use found::Found;
pub use halt::Halt;
pub use programs::{Programs, Sliced};
