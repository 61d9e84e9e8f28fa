//! The sides of a row, as they stand beside its factors.

/// The lower and the upper side of a row, which may be absent, and the row's weight.
#[derive(Clone, Copy, Debug, Drop)]
pub(crate) struct Sides {
    pub(crate) low: Option<i128>,
    pub(crate) high: Option<i128>,
    pub(crate) weight: u128,
}
