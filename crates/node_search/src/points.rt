//! Points of a node that are better than the best one: at a vertex, next to it, and in parts of the node.

pub(crate) mod dive;
pub(crate) mod near;
pub(crate) mod rounded;
