//! The region of a node in the coordinates of a frame, and the frames of a node.
//!
//! Hardly any code: the crate is definitions and laws (`specs/`): a node's frames over the columns that presolving keeps, the
//! rational points of its other inequalities in their coordinates, and the points of the node for which these stand. The functions
//! here do nothing; their contracts carry the laws.
#![tactic(auto)]

mod laws;
mod points;

pub use laws::{forms_of_coordinates, node_coordinates, node_systems, reduced_points};
pub use points::regions_have_the_points_of_nodes;
