//! What an equality lacks that no point of a frame meets.
use spaces::{Form, Work};
use unimodular_pair::Steps;

/// The value of a form at the one vector at which gathering leaves one, with that vector's row of V and the steps of gathering:
/// no multiple of the value is the rest of the equality's side. Where all values are 0, the value and the row are too, there
/// are no steps, and the rest is not 0.
#[derive(Drop)]
pub(crate) struct Miss {
    pub(crate) row: Form<Work>,
    pub(crate) value: i128,
    pub(crate) rest: i128,
    pub(crate) steps: Steps,
}
