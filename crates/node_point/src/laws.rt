//! What the check of a point shows. The function here does nothing; its contract carries the law.
ghost use Rattle.std.specs.Prelude.{◌↔◌, ℤ, pos, ◌<ℤ◌, List, Option};
ghost use Rattle.whole_rows.specs.WholeRows.{WholeRows};
ghost use Rattle.farkas_rows.specs.declared.path.Slice.{Slice};
ghost use Rattle.node_point.specs.NodePoints.{Fractions, IsNodePoint};
ghost use Rattle.node_point.specs.RationalPoints.{IsRationalPoint, coordinates};

/// Values over a denominator above 0 are a point of the node exactly where their quotients are one over the rational
/// numbers.
pub fn node_points_are_rational_points()
    ensures { (rows : WholeRows) (path : List Slice) (cut : Option ℤ) (x : Fractions) → pos 0 <ℤ x.denominator
        → IsNodePoint rows path cut x ↔ IsRationalPoint rows path cut (coordinates x) }
{}
