//! Sums of products over `i128` that answer whether they fit.

ghost use Rattle.std.specs.Prelude.{◌≡◌, pos, ◌+ℤ◌, ◌*ℤ◌, length, FitsSigned, SomeIff};
ghost use Rattle.exact_math.specs.Ring.{integers};
ghost use Rattle.exact_vectors.specs.Range.{StaysInRange};
ghost use Rattle.exact_vectors.specs.Vectors.{dot};
ghost use mir.Syntax.{w128};

/// The bound below which a product of two numbers cannot leave `i128`.
const NARROW: i128 = 1 << 63;

/// The product where it fits `i128`. Two factors of 64 bits are multiplied without a test.
fn product_checked(a: i128, b: i128) -> Option<i128>
    ensures { SomeIff result (FitsSigned w128 (a *ℤ b)) (a *ℤ b) }
{
    if -NARROW <= a && a < NARROW && -NARROW <= b && b < NARROW {
        Some(a * b)
    } else {
        a.checked_mul(b)
    }
}

/// `sum` with a product added, where the product and the new sum fit `i128`.
pub fn add_product(sum: i128, a: i128, b: i128) -> Option<i128>
    ensures { SomeIff result (FitsSigned w128 (a *ℤ b) × FitsSigned w128 (sum +ℤ a *ℤ b)) (sum +ℤ a *ℤ b) }
{
    sum.checked_add(product_checked(a, b)?)
}

/// The dot product of two slices of one length, taken in index order.
///
/// `None` comes exactly where a product or a partial sum leaves `i128`.
pub fn dot_checked(a: &[i128], x: &[i128]) -> Option<i128>
    requires { length a.now ≡ length x.now }
    ensures { SomeIff result (StaysInRange (pos 0) a.now x.now) (dot integers a.now x.now) }
{
    let mut sum = 0;
    for (p, q) in a.iter().zip(x) {
        sum = add_product(sum, *p, *q)?;
    }
    Some(sum)
}
