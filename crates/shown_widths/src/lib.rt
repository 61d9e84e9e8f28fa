//! Directions of a node that points and lines show.
//!
//! The widths of a form and of others are compared by whole numbers and fractions of 128 bits, without a linear program: the points
//! are checked points of the node, and the lines refute the ends of the form.
#![tactic(auto)]

mod columns;
mod direction;
mod limits;
mod point;
mod room;
mod side;
mod width;

pub use direction::is_direction;
