//! The node that a search works: its model, the path to it and the best value, and the check of a better point.
#![tactic(auto)]

mod better_points;
mod model;
mod task;

pub use better_points::better;
pub use model::OpenModel;
pub use task::Task;
