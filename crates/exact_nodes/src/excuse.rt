//! Why a node is split by single columns.
use generalised_reduce::ThinExcuse;
use lp_solve::{LpExcuse, Pivots};
use reformulate::FrameExcuse;
use spaces::{Form, Kernel, Original};

/// The pivots whose multipliers leave the range as they are carried back to the model's inequalities.
#[derive(Drop)]
pub struct LiftBasis {
    pub pivots: Pivots,
}

/// The pivots whose multipliers give a line that is too heavy; none where the line is that of a gap.
#[derive(Drop)]
pub struct LineBasis {
    pub pivots: Pivots,
}

/// Why a node, and all below it, are split by single columns: the check or the step that failed, with the data that show it.
#[derive(Drop)]
pub enum Excuse {
    /// There is no frame of the node's equalities: a number of the next legal step leaves `i128`.
    Frame(FrameExcuse),
    /// A linear program of the node stops, or the gauge of a candidate leaves the range of `Frac`.
    Lp(LpExcuse),
    /// The reduction of the forms on the node stops.
    Thin(ThinExcuse),
    /// The multipliers at these pivots leave the range as they are carried back to the model's inequalities.
    Lift(LiftBasis),
    /// The line of the multipliers at these pivots weighs above 2 to the power 126.
    HeavyLine(LineBasis),
    /// The form of the split weighs above 2 to the power 96.
    HeavyForm(Form<Original>),
    /// The form on the coordinates of the frame, its constant, an end of it or the next whole number above its values leaves `i128`
    /// over the work columns; where the form is all 0, it is the node's system that leaves the range.
    WideMap(Form<Kernel>),
}
