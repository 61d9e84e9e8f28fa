//! The greatest common divisor and the rational numbers.
ghost use Rattle.std.specs.Prelude.{◌≡◌, ◌≢◌, ◌⊎◌, ◌*◌, ◌<◌, ℕ, ℤ, pos, ◌+ℤ◌, ◌*ℤ◌, ◌≤ℤ◌, ◌<ℤ◌};
ghost use Rattle.std.specs.Int.{IsGcd, ◌∣◌};
ghost use Rattle.exact_math.specs.Gcd.{gcd};
ghost use Rattle.exact_math.specs.Quotient.{floor_div};
ghost use Rattle.exact_math.specs.Rational.{ℚ, whole, frac, ◌+ℚ◌, neg_ℚ, ◌*ℚ◌, inv_ℚ, ◌≤ℚ◌, ◌<ℚ◌};

/// Divisors, and quotients rounded down.
pub fn divisors()
    ensures greatest { (a b : ℕ) → IsGcd a b (gcd a b) }
    ensures euclid { (d a b : ℕ) → gcd d a ≡ 1 → d ∣ a * b → d ∣ b }
    ensures lowest_terms { (a b c d : ℕ) → gcd a b ≡ 1 → gcd c d ≡ 1 → a * d ≡ c * b → (a ≡ c) × (b ≡ d) }
    ensures floor_below { (n : ℤ) (d : ℕ) → 0 < d → (floor_div n d *ℤ pos d) ≤ℤ n }
    ensures floor_above { (n : ℤ) (d : ℕ) → 0 < d → n <ℤ ((floor_div n d +ℤ pos 1) *ℤ pos d) }
{}

/// The rational numbers are an ordered field, made of the fractions of whole numbers.
pub fn rational_numbers()
    ensures same_fraction { (a c : ℤ) (b d : ℕ) → 0 < b → 0 < d → a *ℤ pos d ≡ c *ℤ pos b → frac a b ≡ frac c d }
    ensures every_fraction { (q : ℚ) → frac q.num q.den ≡ q }
    ensures add_assoc { (p q r : ℚ) → (p +ℚ q) +ℚ r ≡ p +ℚ (q +ℚ r) }
    ensures add_comm { (p q : ℚ) → p +ℚ q ≡ q +ℚ p }
    ensures add_zero { (p : ℚ) → p +ℚ whole (pos 0) ≡ p }
    ensures add_neg { (p : ℚ) → p +ℚ neg_ℚ p ≡ whole (pos 0) }
    ensures mul_assoc { (p q r : ℚ) → (p *ℚ q) *ℚ r ≡ p *ℚ (q *ℚ r) }
    ensures mul_comm { (p q : ℚ) → p *ℚ q ≡ q *ℚ p }
    ensures mul_one { (p : ℚ) → p *ℚ whole (pos 1) ≡ p }
    ensures mul_add { (p q r : ℚ) → p *ℚ (q +ℚ r) ≡ p *ℚ q +ℚ p *ℚ r }
    ensures mul_inverse { (p : ℚ) → p ≢ whole (pos 0) → p *ℚ inv_ℚ p ≡ whole (pos 1) }
    ensures le_trans { (p q r : ℚ) → p ≤ℚ q → q ≤ℚ r → p ≤ℚ r }
    ensures le_antisym { (p q : ℚ) → p ≤ℚ q → q ≤ℚ p → p ≡ q }
    ensures le_or_lt { (p q : ℚ) → (p ≤ℚ q) ⊎ (q <ℚ p) }
    ensures add_le { (p q r s : ℚ) → p ≤ℚ q → r ≤ℚ s → (p +ℚ r) ≤ℚ (q +ℚ s) }
    ensures mul_nonneg { (p q : ℚ) → whole (pos 0) ≤ℚ p → whole (pos 0) ≤ℚ q → whole (pos 0) ≤ℚ (p *ℚ q) }
{}
