//! Numbers over a denominator between two sides.
ghost use Rattle.std.specs.Prelude.{◌≡◌, ◌↔◌, ◌*ℤ◌, IsTrue, SomeIff, length};
ghost use Rattle.node_point.specs.Checks.{TellsLow, TellsHigh, TellsForm};
ghost use Rattle.node_point.specs.Ranges.{SideFits};

use exact_vectors::{add_product, dot_checked};

/// A side times the denominator, where that fits.
fn scaled(side: i128, denominator: i128) -> Option<i128>
    ensures { SomeIff result (SideFits denominator side) (side *ℤ denominator) }
{
    add_product(0, side, denominator)
}

/// Whether a side that may be absent is at most the number over the denominator, and fits when it is multiplied.
pub(crate) fn is_at_least(low: Option<i128>, denominator: i128, value: i128) -> bool
    ensures { IsTrue result ↔ TellsLow denominator value low }
{
    let Some(side) = low else {
        return true;
    };
    match scaled(side, denominator) {
        Some(least) => least <= value,
        None => false,
    }
}

/// Whether the number over the denominator is at most a side that may be absent, which fits when it is multiplied.
pub(crate) fn is_at_most(high: Option<i128>, denominator: i128, value: i128) -> bool
    ensures { IsTrue result ↔ TellsHigh denominator value high }
{
    let Some(side) = high else {
        return true;
    };
    match scaled(side, denominator) {
        Some(greatest) => value <= greatest,
        None => false,
    }
}

/// Whether a form's value at numerators over a denominator lies between two sides, of which each may be absent, and all
/// numbers on the way fit.
pub(crate) fn lies_between(
    form: &[i128],
    low: Option<i128>,
    high: Option<i128>,
    numerators: &[i128],
    denominator: i128,
) -> bool
    requires { length form.now ≡ length numerators.now }
    ensures { IsTrue result ↔ TellsForm denominator numerators.now form.now low high }
{
    let Some(value) = dot_checked(form, numerators) else {
        return false;
    };
    is_at_least(low, denominator, value) && is_at_most(high, denominator, value)
}
