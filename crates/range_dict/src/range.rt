//! Variables with their ranges.
use crate::number::narrow;
use crate::stop::RangeStop;

/// What a variable of a dictionary is. Rows, columns and slices are numbered from 0.
#[derive(Clone, Copy, Debug, PartialEq, Eq, Drop)]
pub(crate) enum Variable {
    Row(u32),
    Column(u32),
    Slice(u32),
    Cost,
}

/// A variable and its range; a side that is absent bounds nothing.
#[derive(Clone, Copy, Debug, Drop)]
pub(crate) struct Range {
    pub(crate) variable: Variable,
    pub(crate) low: Option<i64>,
    pub(crate) high: Option<i64>,
}

impl Range {
    /// The range between these sides. `Wide` comes where a side does not have 64 bits, and where they cross.
    pub(crate) fn new(
        variable: Variable,
        low: Option<i128>,
        high: Option<i128>,
    ) -> Result<Range, RangeStop> {
        let range = Range {
            variable,
            low: narrow_side(low)?,
            high: narrow_side(high)?,
        };
        if range.is_crossed() {
            Err(RangeStop::Wide)
        } else {
            Ok(range)
        }
    }

    /// Whether the lower side is above the upper one.
    fn is_crossed(&self) -> bool {
        match (self.low, self.high) {
            (Some(low), Some(high)) => high < low,
            _ => false,
        }
    }

    /// Whether there is one value.
    pub(crate) fn is_fixed(&self) -> bool {
        match (self.low, self.high) {
            (Some(low), Some(high)) => low == high,
            _ => false,
        }
    }
}

/// A side, where it has 64 bits.
fn narrow_side(side: Option<i128>) -> Result<Option<i64>, RangeStop> {
    match side {
        None => Ok(None),
        Some(side) => Ok(Some(narrow(side)?)),
    }
}

/// A variable outside of the basis, which stands at one of its sides.
#[derive(Clone, Copy, Debug, Drop)]
pub(crate) struct Outside {
    pub(crate) range: Range,
    pub(crate) at: i64,
    pub(crate) is_high: bool,
}
