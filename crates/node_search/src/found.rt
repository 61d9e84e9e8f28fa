//! What the programs of a node find.
use crate::directions::ends::Direction;
use farkas_rows::Line;
use range_dict::Vertex;
use spaces::{Original, Vect};

/// What the programs of a node find.
#[derive(Debug, Drop)]
pub enum Found {
    /// The node has no rational point, as the line shows where `refutes` of the crate `farkas_rows` says so.
    Empty(Line),
    /// A point that is better than the best one.
    Point(Vect<Original>),
    /// A direction along which the node is thin, and points of it that the programs have shown.
    Thin {
        direction: Direction,
        points: Vec<Vertex>,
    },
}
