//! What the checker says of a text.
use proof_text::Claim;

/// Why a line of a proof text is refused.
#[derive(Clone, Copy, Debug, PartialEq, Eq, Drop)]
pub enum RejectKind {
    /// The line has more than 98,304 bytes.
    LongLine,
    /// The text ends before the line feed of the line `DONE`.
    Short,
    /// Bytes follow the line `DONE`.
    Tail,
    /// The first line is not `SLICER 1`.
    Head,
    /// The second line claims nothing that could be shown.
    Claim,
    /// The claimed point is no point of the model.
    Point,
    /// The line has not the shape that its place asks for.
    Record,
    /// A number is not spelled as it is to be, out of its range, or out of order.
    Number,
    /// A split has slices where the path may have none more.
    Depth,
    /// The form or the line weighs too much.
    Weight,
    /// A cut is used that the claim does not allow.
    Cut,
    /// The line does not refute its node.
    Refute,
}

/// The first line that is refused, and why.
#[derive(Clone, Copy, Debug, PartialEq, Eq, Drop)]
pub struct Reject {
    pub kind: RejectKind,
    /// The number of the line, from 1.
    pub line: u64,
}

/// What the checker says of a text.
#[derive(Debug, Drop)]
pub enum Verdict {
    Accepted(Claim),
    Rejected(Reject),
}
