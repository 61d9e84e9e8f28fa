//! Systems of inequalities.
use sequence::Sequence;
use spaces::{Grid, Kernel};

/// The right sides of a system, one for each row.
pub type Limits = Sequence<i128>;

/// The inequalities `G*y <= h` in the coordinates `y` of the kernel.
#[derive(Debug, Drop)]
pub struct System {
    /// The rows of G, with one factor for each coordinate.
    pub rows: Grid<Kernel, i128>,
    /// The limits h, one for each row.
    pub limits: Limits,
}
