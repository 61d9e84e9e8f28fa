//! The exact way of a node, by exact fractions alone: a line that closes it, a better point, or a split along a thin direction; and
//! the excuses by which a node is split by single columns.
#![tactic(auto)]

mod exact;
mod excuse;
mod forms;
mod halt;
mod lines;
mod point;
mod region;

pub use exact::{Exact, exact_move};
pub use excuse::{Excuse, LiftBasis, LineBasis};
