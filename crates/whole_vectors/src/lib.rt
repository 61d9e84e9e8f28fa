//! Whole vectors and matrices among the rational ones, and common denominators of rational vectors.
//!
//! Hardly any code: definitions and laws (`specs/`). The function here does nothing; its contract carries the laws.
#![tactic(auto)]

ghost use Rattle.std.specs.Prelude.{◌≡◌, ℕ, ℤ, List, map};
ghost use Rattle.exact_math.specs.Rational.{ℚ, whole};
ghost use Rattle.exact_math.specs.RationalRing.{rationals};
ghost use Rattle.exact_math.specs.Ring.{integers};
ghost use Rattle.exact_vectors.specs.Matrices.{combination, times_vector};
ghost use Rattle.exact_vectors.specs.Vectors.{add, dot, scale};
ghost use Rattle.whole_vectors.specs.Cleared.{Cleared};

/// The operations on whole vectors are those on rational ones, and a rational vector is a whole one over a common denominator.
pub fn whole_vectors_among_rational_ones()
    ensures added { (u v : List ℤ) → map whole (add integers u v) ≡ add rationals (map whole u) (map whole v) }
    ensures scaled { (k : ℤ) (v : List ℤ) → map whole (scale integers k v) ≡ scale rationals (whole k) (map whole v) }
    ensures multiplied { (u v : List ℤ) → dot rationals (map whole u) (map whole v) ≡ whole (dot integers u v) }
    ensures times { (rows : List (List ℤ)) (x : List ℤ) → times_vector rationals (map (map whole) rows) (map whole x) ≡ map whole (times_vector integers rows x) }
    ensures combined { (n : ℕ) (y : List ℤ) (rows : List (List ℤ)) → map whole (combination integers n y rows) ≡ combination rationals n (map whole y) (map (map whole) rows) }
    ensures cleared { (x : List ℚ) → Cleared x }
{}
