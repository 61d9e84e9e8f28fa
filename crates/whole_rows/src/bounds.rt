//! The bounds of a column.
ghost use Rattle.std.specs.Prelude.{◌≡◌};
ghost use Rattle.whole_rows.specs.WholeRows.{reach};

/// The least and the greatest value of a column.
#[derive(Clone, Copy, Debug, PartialEq, Eq, Drop)]
pub struct Bounds {
    pub low: i128,
    pub high: i128,
}

impl Bounds {
    /// The size that no value between the bounds passes, nor the bounds themselves; at least 1.
    pub fn reach(self) -> u128
        ensures { result ≡ reach self }
    {
        self.low.unsigned_abs().max(self.high.unsigned_abs()).max(1)
    }
}
