//! Rational points of a node, checked: a point that a search without a proof has found is believed only through here.
#![tactic(auto)]

mod laws;
mod parts;
mod point;
mod sides;

pub use laws::node_points_are_rational_points;
pub use point::NodePoint;
