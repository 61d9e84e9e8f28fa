//! Whole numbers next to a fraction.
ghost use Rattle.std.specs.Prelude.{pos, ◌<ℤ◌};

/// The greatest whole number that is at most a numerator over a denominator above 0.
pub(crate) fn floor(numerator: i128, denominator: i128) -> Option<i128> {
    if denominator <= 0 {
        return None;
    }
    Some(numerator.div_euclid(denominator))
}

/// The least whole number that is at least a numerator over a denominator above 0.
pub(crate) fn ceil(numerator: i128, denominator: i128) -> Option<i128> {
    if denominator <= 0 {
        return None;
    }
    let below = numerator.div_euclid(denominator);
    if numerator.rem_euclid(denominator) == 0 {
        Some(below)
    } else {
        below.checked_add(1)
    }
}

/// The whole number nearest to a numerator over a denominator above 0, the greater one of two.
pub(crate) fn nearest(numerator: i128, denominator: i128) -> Option<i128> {
    floor(
        numerator.checked_mul(2)?.checked_add(denominator)?,
        denominator.checked_mul(2)?,
    )
}
