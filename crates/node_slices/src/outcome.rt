//! What becomes of a frame on a slice.
use reformulate::{Frame, FrameExcuse};
use spaces::{Form, Work};
use unimodular_pair::Pair;

/// The frame of a slice, and how it was made from that of the node.
#[derive(Drop)]
pub struct Sliced {
    pub frame: Frame,
    /// Its first row is the form of the slice on the coordinates of the node's frame.
    pub pair: Pair,
    /// The form of the slice, a factor for each work column.
    pub work: Form<Work>,
}

/// What becomes of a frame on a slice.
#[derive(Drop)]
pub enum SliceFrame {
    /// The slice has a frame.
    Framed(Sliced),
    /// A number of the next legal step leaves `i128`.
    Excused(FrameExcuse),
}
