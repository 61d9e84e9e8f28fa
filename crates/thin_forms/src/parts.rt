//! The primitive part of a form: its factors over their greatest common divisor.
ghost use Rattle.std.specs.Prelude.{◌≡◌, ◌<ℤ◌, pos, nat_abs, ◌*ℤ◌, IfNone, IfOk, IfSome};
ghost use Rattle.std.specs.Int.{◌∣◌};
ghost use Rattle.std.specs.List.{All};
ghost use Rattle.exact_math.specs.Ring.{integers};
ghost use Rattle.exact_vectors.specs.Vectors.{scale};
ghost use Rattle.frac128.specs.Range.{IsNarrow};
ghost use Rattle.unimodular_pair.specs.Gathering.{common_divisor};
ghost use Rattle.thin_forms.specs.Parts.{IsPrimitivePart};

use frac128::gcd;
use sequence::{NoMemory, Sequence};
use spaces::{Form, Kernel};
use std::alloc::Global;

// The greatest common divisor of factors, 0 where all are 0.
fn divisor_of(factors: &[i128]) -> i128
    requires { All IsNarrow factors.now }
    ensures { result ≡ pos (common_divisor factors.now) }
{
    let Some((first, rest)) = factors.split_first() else {
        return 0;
    };
    let divisor = divisor_of(rest);
    gcd(*first, divisor)
}

// A factor over a divisor of it.
fn quotient(factor: i128, divisor: i128) -> i128
    requires positive { pos 0 <ℤ divisor }
    requires divides { nat_abs divisor ∣ nat_abs factor }
    ensures { divisor *ℤ result ≡ factor }
{
    factor / divisor
}

// The factors over a common divisor.
fn quotients(alloc: Global, factors: &[i128], divisor: i128) -> Result<Form<Kernel>, NoMemory>
    requires positive { pos 0 <ℤ divisor }
    requires common { All (λ factor. nat_abs divisor ∣ nat_abs factor) factors.now }
    ensures { IfOk result (λ form. scale integers divisor form ≡ factors.now) }
{
    let mut items = Sequence::new(alloc);
    for j in 0..factors.len() {
        let item = quotient(factors[j], divisor);
        items.push(item)?;
    }
    Ok(Form::of(items.into_vec()))
}

/// The primitive part of a form; none where all factors are 0.
pub fn primitive_part(alloc: Global, factors: &[i128]) -> Result<Option<Form<Kernel>>, NoMemory>
    requires { All IsNarrow factors.now }
    ensures part { IfOk result (λ part. IfSome part (IsPrimitivePart factors.now)) }
    ensures narrow { IfOk result (λ part. IfSome part (All IsNarrow)) }
    ensures none { IfOk result (λ part. IfNone part (All (λ factor. factor ≡ pos 0) factors.now)) }
{
    let divisor = divisor_of(factors);
    if divisor == 0 {
        return Ok(None);
    }
    let form = quotients(alloc, factors, divisor)?;
    Ok(Some(form))
}
