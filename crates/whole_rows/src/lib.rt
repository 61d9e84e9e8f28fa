//! Rows of whole numbers over a box: what lies in the box and meets each row is a point.
#![tactic(auto)]

mod bounds;
mod dense_rows;
mod ends;
mod sides;
mod stops;
mod sums;
mod weights;

pub use bounds::Bounds;
pub use dense_rows::DenseRows;
pub use ends::{End, reaches_sides};
pub use stops::{BoxStop, HeavyCost, RowStop};
pub use weights::{HEAVIEST, span_of, with_term};
