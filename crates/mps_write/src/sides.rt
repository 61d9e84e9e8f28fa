//! The sides of a row as whole numbers.
ghost use Rattle.std.specs.Prelude.{◌≡◌, ◌^◌, ◌≤◌, nat_abs, IfSome, is_some};
ghost use Rattle.mps_write.specs.CanonicalText.{whole_side, kind_of, right_side, range_of};

use frac128::Frac;
use int_model::Row;

/// The two sides of a row of a plain model.
#[derive(Clone, Copy, Debug, Drop)]
pub(crate) struct WholeSides {
    low: Option<i128>,
    high: Option<i128>,
}

fn whole_of(side: &Option<Frac>) -> Option<i128>
    ensures { result ≡ whole_side side.now }
{
    match side {
        Some(number) => Some(number.num()),
        None => None,
    }
}

impl WholeSides {
    /// The sides of a row.
    pub(crate) fn of(row: &Row) -> WholeSides
        ensures low { result.low ≡ whole_side row.now.lo }
        ensures high { result.high ≡ whole_side row.now.hi }
    {
        WholeSides {
            low: whole_of(&row.lo),
            high: whole_of(&row.hi),
        }
    }

    /// The kind of the row.
    pub(crate) fn kind(self) -> &'static [u8]
        ensures { result.now ≡ kind_of self.low self.high }
    {
        match (self.low, self.high) {
            (None, _) => b"L",
            (Some(_), None) => b"G",
            (Some(low), Some(high)) => { if low == high { b"E" } else { b"G" } }
        }
    }

    /// The number of the row in RHS.
    pub(crate) fn right_side(self) -> i128
        ensures { result ≡ right_side self.low self.high }
    {
        self.low.or(self.high).unwrap_or(0)
    }

    /// Whether the row has two sides that differ.
    pub(crate) fn has_range(self) -> bool
        ensures { result ≡ is_some (range_of self.low self.high) }
    {
        match (self.low, self.high) {
            (Some(low), Some(high)) => low != high,
            (Some(_), None) => false,
            (None, _) => false,
        }
    }

    /// The number of the row in RANGES, if it has one.
    pub(crate) fn range(self) -> Option<i128>
        requires low { IfSome self.low (λ side. nat_abs side ≤ 2 ^ 96) }
        requires high { IfSome self.high (λ side. nat_abs side ≤ 2 ^ 96) }
        ensures { result ≡ range_of self.low self.high }
    {
        match (self.low, self.high) {
            (Some(low), Some(high)) if low != high => Some(high - low),
            _ => None,
        }
    }
}
