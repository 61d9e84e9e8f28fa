//! The kinds of rows.
ghost use Rattle.std.specs.Prelude.{◌≡◌, ℕ, List};
ghost use Rattle.mps_model.specs.Sides.{has_sides};
ghost use Rattle.mps_model.specs.RowKinds.{row_of, row_kind_of};

/// What a row bounds, by its letter.
#[derive(Clone, Copy, Debug, PartialEq, Eq)]
pub(crate) enum RowKind {
    /// N: nothing. The first such row is the objective.
    Free,
    /// E: its sum is its right side.
    Equal,
    /// L: its sum is at most its right side.
    AtMost,
    /// G: its sum is at least its right side.
    AtLeast,
}

impl RowKind {
    /// The kind with these letters, if there is one.
    pub(crate) fn of(letters: &[u8]) -> Option<RowKind>
        ensures { result ≡ row_kind_of letters.now }
    {
        match letters {
            b"N" => Some(RowKind::Free),
            b"E" => Some(RowKind::Equal),
            b"L" => Some(RowKind::AtMost),
            b"G" => Some(RowKind::AtLeast),
            _ => None,
        }
    }

    pub(crate) fn has_sides(self) -> bool
        ensures { (name : List ℕ) → result ≡ has_sides (row_of self name) }
    {
        match self {
            RowKind::Free => false,
            RowKind::Equal | RowKind::AtMost | RowKind::AtLeast => true,
        }
    }
}
