//! The sides of a row, from its kind, its right side and its range.
ghost use Rattle.std.specs.Prelude.{◌≡◌, ℕ, List, Option};
ghost use Rattle.exact_math.specs.Rational.{ℚ, ◌+ℚ◌};
ghost use Rattle.mps_model.specs.Sides.{absolute as absolute_of, range_step as step_of, plain_sides as sides_without_range, stepped_sides, ranged_sides};
ghost use Rattle.mps_model.specs.RowKinds.{row_of};
ghost use Rattle.mps_model.specs.KeptSides.{sides_view, range_end};

use crate::tables::row_kind::RowKind;
use frac128::Frac;

/// The sides between which a row lies, both included. A side that is absent bounds nothing.
#[derive(Clone, Copy, Debug)]
pub(crate) struct RowSides {
    pub(crate) lo: Option<Frac>,
    pub(crate) hi: Option<Frac>,
}

fn absolute(number: Frac) -> Frac
    ensures { result ≡ absolute_of number }
{
    if number.num() < 0 {
        number.neg()
    } else {
        number
    }
}

// The sides between a right side and the end to which a range goes from it.
fn sides_between(side: Frac, end: Frac) -> RowSides
    ensures { (step : ℚ) → end ≡ side +ℚ step → sides_view result ≡ stepped_sides side step }
{
    if end < side {
        RowSides {
            lo: Some(end),
            hi: Some(side),
        }
    } else {
        RowSides {
            lo: Some(side),
            hi: Some(end),
        }
    }
}

impl RowKind {
    /// How far a range goes from the right side.
    pub(crate) fn range_step(self, range: Frac) -> Frac
        ensures { (name : List ℕ) → result ≡ step_of (row_of self name) range }
    {
        match self {
            RowKind::AtMost => absolute(range).neg(),
            RowKind::AtLeast => absolute(range),
            RowKind::Free | RowKind::Equal => range,
        }
    }

    // The sides without a range.
    fn plain_sides(self, side: Frac) -> RowSides
        ensures { (name : List ℕ) → sides_view result ≡ sides_without_range (row_of self name) side }
    {
        match self {
            RowKind::AtMost => RowSides {
                lo: None,
                hi: Some(side),
            },
            RowKind::AtLeast => RowSides {
                lo: Some(side),
                hi: None,
            },
            RowKind::Free | RowKind::Equal => RowSides {
                lo: Some(side),
                hi: Some(side),
            },
        }
    }

    /// The sides of a row with this right side, and with a range that goes from there to this end, if it has one.
    pub(crate) fn sides(self, side: Frac, end: Option<Frac>) -> RowSides
        ensures { (name : List ℕ) (range : Option ℚ) → end ≡ range_end side (row_of self name) range
            → sides_view result ≡ ranged_sides (row_of self name) side range }
    {
        match end {
            Some(end) => sides_between(side, end),
            None => self.plain_sides(side),
        }
    }
}
