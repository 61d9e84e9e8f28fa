//! The sides of a Work row, as they stand beside its factors.

/// The lower and the upper side, which may be absent, and the number of the row in the model.
#[derive(Clone, Copy, Debug, Drop)]
pub(crate) struct WorkSides {
    pub(crate) low: Option<i128>,
    pub(crate) high: Option<i128>,
    pub(crate) number: u32,
}
