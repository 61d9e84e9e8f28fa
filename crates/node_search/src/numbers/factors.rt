//! Rows of whole factors.
ghost use Rattle.std.specs.Prelude.{◌≡◌, pos, IfSome};
ghost use Rattle.unimodular_pair.specs.Gathering.{common_divisor};

use frac128::gcd;

/// The greatest common divisor of factors; none where one of them has no size.
pub fn divisor_of(factors: &[i128]) -> Option<i128>
    ensures { IfSome result (λ divisor. divisor ≡ pos (common_divisor factors.now)) }
{
    let Some((first, rest)) = factors.split_first() else {
        return Some(0);
    };
    let divisor = divisor_of(rest)?;
    if *first == i128::MIN {
        return None;
    }
    Some(gcd(*first, divisor))
}

/// Adds a multiple of a row to factors.
pub(crate) fn add_row(factors: &mut [i128], row: &[i128], times: i128) -> Option<()> {
    if factors.len() != row.len() {
        return None;
    }
    for i in 0..row.len() {
        factors[i] = factors[i].checked_add(row[i].checked_mul(times)?)?;
    }
    Some(())
}
