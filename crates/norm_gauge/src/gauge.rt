//! Gauges.
use frac128::Frac;
use lp_solve::{Point, Weights};

/// The width of a form, with two points and weights that show it.
#[derive(Debug, Drop)]
pub struct Gauge {
    /// The width.
    pub value: Frac,
    /// The form's value at the lower point.
    pub least: Frac,
    /// The form's value at the upper point.
    pub greatest: Frac,
    /// The lower point.
    pub low: Point,
    /// The upper point.
    pub high: Point,
    /// The multipliers of the program that shows the width, or under no rows the lower end.
    pub below: Weights,
    /// The multipliers of the program that shows the upper end under no rows; else none.
    pub above: Weights,
}
