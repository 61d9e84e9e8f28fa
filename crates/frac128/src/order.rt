//! The comparison of quotients by Euclid's steps, in which no number grows.
ghost use Rattle.std.specs.Prelude.{◌≡◌, ◌*◌, ◌<◌};
ghost use Rattle.std.specs.Ordering.{nat_cmp, as_partial_cmp, eq_by_cmp};
ghost use Rattle.exact_math.specs.Rational.{rational_cmp};
ghost use Rattle.frac128.specs.Range.{IsWord};
ghost use Rattle.frac128.specs.Order.{rational_cmp_total, rational_eq_laws, rational_eq_equivalence, rational_order_laws};
ghost use Rattle.std.specs.Prelude.{refl};

use crate::frac::Frac;
use crate::narrow::word_multiple;
use std::cmp::Ordering;

impl PartialEq for Frac {
    ghost eq = { eq_by_cmp rational_cmp };

    ghost laws = { rational_eq_laws };

    fn eq(&self, other: &Frac) -> bool {
        self.num() == other.num() && self.divisor() == other.divisor()
    }
}

impl Eq for Frac {
    ghost laws = { rational_eq_equivalence };
}

impl PartialOrd for Frac {
    ghost partial_cmp = { as_partial_cmp rational_cmp };

    ghost laws = { rational_order_laws };

    fn partial_cmp(&self, other: &Frac) -> Option<Ordering> {
        Some(self.cmp(other))
    }
}

impl Ord for Frac {
    ghost cmp = { rational_cmp };

    ghost total = { rational_cmp_total };

    ghost matches_partial_cmp = { λ x y. refl };

    ghost matches_eq = { λ x y. refl };

    fn cmp(&self, other: &Frac) -> Ordering {
        if self.is_word() && other.is_word() {
            return compare_words(self, other);
        }
        if self.divisor() == other.divisor() {
            return self.num().cmp(&other.num());
        }
        match (self.is_negative(), other.is_negative()) {
            (false, false) => {
                compare_quotients(self.size(), self.divisor(), other.size(), other.divisor())
            }
            (true, true) => {
                compare_quotients(other.size(), other.divisor(), self.size(), self.divisor())
            }
            (true, false) => Ordering::Less,
            (false, true) => Ordering::Greater,
        }
    }
}

// Fractions of 63-bit numbers, whose cross products fit.
fn compare_words(p: &Frac, q: &Frac) -> Ordering
    requires left { IsWord p.now }
    requires right { IsWord q.now }
    ensures { result ≡ rational_cmp p.now q.now }
{
    let left = word_multiple(p.num(), q.divisor() as u64);
    let right = word_multiple(q.num(), p.divisor() as u64);
    left.cmp(&right)
}

/// Compares a/b with c/d: their whole parts decide, or else the parts that remain, turned over.
pub(crate) fn compare_quotients(a: u128, b: u128, c: u128, d: u128) -> Ordering
    requires b_positive { 0 < b }
    requires d_positive { 0 < d }
    ensures { result ≡ nat_cmp (a * d) (c * b) }
{
    let left = a / b;
    let right = c / d;
    if left != right {
        return left.cmp(&right);
    }
    let left_rest = a % b;
    let right_rest = c % d;
    if right_rest == 0 || left_rest == 0 {
        return left_rest.cmp(&right_rest);
    }
    compare_quotients(d, right_rest, b, left_rest)
}
