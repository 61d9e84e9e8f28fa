//! The kinds of bounds.
ghost use Rattle.std.specs.Prelude.{◌≡◌};
ghost use Rattle.mps_model.specs.Tables.{bound_kind_of, takes_value as value_taken};
ghost use Rattle.mps_model.specs.Bounds.{lower_by, upper_by, makes_integer as integer_is_made};

use frac128::Frac;

/// What a line of BOUNDS makes of its column, by its two letters.
#[derive(Clone, Copy, Debug, PartialEq, Eq)]
pub enum BoundKind {
    /// A lower bound.
    Lo,
    /// An upper bound.
    Up,
    /// Both bounds, at one number.
    Fx,
    /// No bound.
    Fr,
    /// No lower bound.
    Mi,
    /// No upper bound.
    Pl,
    /// An integer from 0 to 1.
    Bv,
    /// A lower bound of an integer.
    Li,
    /// An upper bound of an integer.
    Ui,
}

impl BoundKind {
    /// The kind with these letters.
    pub(crate) fn from_word(word: &[u8]) -> Option<BoundKind>
        ensures { result ≡ bound_kind_of word.now }
    {
        match word {
            b"LO" => Some(BoundKind::Lo),
            b"UP" => Some(BoundKind::Up),
            b"FX" => Some(BoundKind::Fx),
            b"FR" => Some(BoundKind::Fr),
            b"MI" => Some(BoundKind::Mi),
            b"PL" => Some(BoundKind::Pl),
            b"BV" => Some(BoundKind::Bv),
            b"LI" => Some(BoundKind::Li),
            b"UI" => Some(BoundKind::Ui),
            _ => None,
        }
    }

    /// A value counts for this kind.
    pub(crate) fn takes_value(self) -> bool
        ensures { result ≡ value_taken self }
    {
        !matches!(
            self,
            BoundKind::Fr | BoundKind::Mi | BoundKind::Pl | BoundKind::Bv
        )
    }

    /// What a bound of this value makes of the lower side: nothing, or no bound at all, or its number.
    pub(crate) fn lower_side(self, value: Frac) -> Option<Option<Frac>>
        ensures { result ≡ lower_by self value }
    {
        match self {
            BoundKind::Lo | BoundKind::Fx | BoundKind::Li => Some(Some(value)),
            BoundKind::Bv => Some(Some(Frac::whole(0))),
            BoundKind::Fr | BoundKind::Mi => Some(None),
            BoundKind::Up | BoundKind::Pl | BoundKind::Ui => None,
        }
    }

    /// The same of the upper side.
    pub(crate) fn upper_side(self, value: Frac) -> Option<Option<Frac>>
        ensures { result ≡ upper_by self value }
    {
        match self {
            BoundKind::Up | BoundKind::Fx | BoundKind::Ui => Some(Some(value)),
            BoundKind::Bv => Some(Some(Frac::whole(1))),
            BoundKind::Fr | BoundKind::Pl => Some(None),
            BoundKind::Lo | BoundKind::Mi | BoundKind::Li => None,
        }
    }

    /// Whether the kind makes its column integer.
    pub(crate) fn makes_integer(self) -> bool
        ensures { result ≡ integer_is_made self }
    {
        matches!(self, BoundKind::Bv | BoundKind::Li | BoundKind::Ui)
    }
}
