//! The integer row of a row with rational coefficients. The function here does nothing; its contract carries the laws.
ghost use Rattle.std.specs.Prelude.{◌≡◌, ◌≢◌, ◌↔◌, ℤ, pos, ◌≤ℤ◌, List, map, All};
ghost use Rattle.std.specs.List.{Any};
ghost use Rattle.exact_math.specs.Ring.{integers};
ghost use Rattle.exact_math.specs.Rational.{ℚ, whole, ◌*ℚ◌, ◌≤ℚ◌, ◌<ℚ◌};
ghost use Rattle.exact_vectors.specs.Vectors.{dot};
ghost use Rattle.whole_rows.specs.WholeRows.{MeetsRow};
ghost use Rattle.int_model.specs.Scale.{common_divisor, FractionRow, MeetsFractionRow, integer_row, scale, scaled, sum_at};

/// A row times its scale, with its sides rounded, has whole coefficients without a common divisor and the same whole points.
pub fn rounding_keeps_points()
    ensures positive { (a : List ℚ) → whole (pos 0) <ℚ scale a }
    ensures whole { (a : List ℚ) → map whole (scaled a) ≡ map (λ q. scale a *ℚ q) a }
    ensures primitive { (a : List ℚ) → Any (λ q. q ≢ whole (pos 0)) a → common_divisor (scaled a) ≡ 1 }
    ensures zeros { (a : List ℚ) → All (λ q. q ≡ whole (pos 0)) a → scale a ≡ whole (pos 1) }
    ensures unique { (k : ℚ) (a : List ℚ) (c : List ℤ) → whole (pos 0) <ℚ k → map whole c ≡ map (λ q. k *ℚ q) a → common_divisor c ≡ 1 → k ≡ scale a }
    ensures points { (row : FractionRow) (x : List ℤ) → MeetsFractionRow row x ↔ MeetsRow (integer_row row) x }
    ensures order { (a : List ℚ) (x y : List ℤ) → (sum_at a x ≤ℚ sum_at a y) ↔ (dot integers (scaled a) x ≤ℤ dot integers (scaled a) y) }
{}
