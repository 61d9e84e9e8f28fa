//! Integer programs with names, and their integer rows.
#![tactic(auto)]

mod int_rows;
mod integer_row;
mod model;
mod model_rounding;
mod objective;
mod part;
mod products;
mod rounding;
mod scales;

pub use int_rows::IntRows;
pub use model::{Column, Columns, Item, Items, Model, Name, Row, Rows};
pub use model_rounding::integer_rows_keep_points;
pub use part::{Part, RowsStop, first_large_part_is_one};
pub use rounding::rounding_keeps_points;
pub use sequence::NoMemory;
pub use whole_rows::{Bounds, DenseRows};
