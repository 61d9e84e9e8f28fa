//! The node that is worked.
use farkas_rows::Path;
use whole_rows::DenseRows;

/// A node that is worked: the path to it, and the cut value of the best point that is known.
#[derive(Clone, Copy, Drop)]
pub struct Task<'a> {
    pub rows: &'a DenseRows,
    pub path: &'a Path,
    pub best: Option<i128>,
}
