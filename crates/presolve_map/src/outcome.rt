//! The answers of presolving.
use crate::work_rows::WorkRows;
use farkas_rows::Line;
use spaces::{Affine, Original, Work};

/// What presolving leaves.
#[derive(Debug, Drop)]
pub enum Presolved {
    /// The rows that are left, and the map from the values of their columns to those of all columns.
    Open {
        map: Affine<Work, Original>,
        rows: WorkRows,
    },
    /// The line refutes the root.
    Closed(Line),
}
