//! The integer rows of a whole model. The function here does nothing; its contract carries the laws.
ghost use Rattle.std.specs.Prelude.{◌≡◌, ◌↔◌, ℤ, ◌≤ℤ◌, List, length};
ghost use Rattle.exact_math.specs.Rational.{◌≤ℚ◌};
ghost use Rattle.whole_rows.specs.WholeRows.{Meets, HasLeastCutValue, cut_value};
ghost use Rattle.int_model.specs.declared.model.Model.{Model};
ghost use Rattle.int_model.specs.Points.{IsPoint, value_at, IsBest};
ghost use Rattle.int_model.specs.IntegerRows.{value_in, integer_rows};

/// A list is a point of a model exactly where it meets the integer rows. It has the same value there, and for two points
/// the order of the values is that of the cut values; so the best points are those of least cut value.
pub fn integer_rows_keep_points()
    ensures points { (model : Model) (x : List ℤ) → IsPoint model x ↔ Meets (integer_rows model).whole x }
    ensures values { (model : Model) (x : List ℤ) → length x ≡ length model.columns → value_at model x ≡ value_in (integer_rows model) x }
    ensures order { (model : Model) (x y : List ℤ) → IsPoint model x → IsPoint model y → (value_at model x ≤ℚ value_at model y) ↔ (cut_value (integer_rows model).whole x ≤ℤ cut_value (integer_rows model).whole y) }
    ensures best { (model : Model) (x : List ℤ) → IsBest model x ↔ HasLeastCutValue (integer_rows model).whole x }
{}
