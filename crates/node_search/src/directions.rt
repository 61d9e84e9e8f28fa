//! Directions of a node: the values that forms take there, and the choice of the form with the fewest among those that are thin.

pub(crate) mod binary;
pub(crate) mod candidates;
pub(crate) mod choice;
pub(crate) mod ends;
pub(crate) mod middle;
pub(crate) mod node_forms;
pub(crate) mod outlook;
pub(crate) mod pairs;
pub(crate) mod rests;
pub(crate) mod seen;
pub(crate) mod spread;
pub(crate) mod thin;
pub(crate) mod walls;
