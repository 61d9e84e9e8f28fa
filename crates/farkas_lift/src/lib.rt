//! The system of a node in the coordinates of a frame, and its multipliers carried back to the model's own inequalities.
#![tactic(auto)]

mod equalities;
mod grids;
mod lifting;
mod multiples;
mod place;
mod root;
mod side;
mod system;

pub use equalities::node_equalities;
pub use lifting::lift;
pub use multiples::negated;
pub use place::Place;
pub use root::lift_equalities;
pub use side::{NodeSide, common_side};
pub use system::kernel_system;
