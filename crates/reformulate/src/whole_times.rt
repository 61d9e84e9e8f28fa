//! Multipliers freed of their denominators.
ghost use Rattle.std.specs.Prelude.{◌≡◌, ◌^◌, ◌<◌, pos, nat_abs, ◌<ℤ◌, ◌*ℤ◌, ◌++◌, FitsSigned, IfErr, IfOk, OnOk, SomeIff, ⊤};
ghost use Rattle.exact_math.specs.Ring.{integers};
ghost use Rattle.exact_vectors.specs.Vectors.{zeros};
ghost use Rattle.row_lifting.specs.Stops.{StopsUnless};
ghost use Rattle.reformulate.specs.GapTimes.{common_denominator, sign_of, time_of, times_of, TimesStay};
ghost use mir.Syntax.{w128};

use frac128::{Frac, lcm};
use row_lifting::LiftStop;
use std::alloc::Global;

// The least common denominator, where it is below 2^127.
fn common_denominator(multipliers: &[Frac]) -> Option<i128>
    ensures { SomeIff result (common_denominator multipliers.now < 2 ^ 127) (pos (common_denominator multipliers.now)) }
{
    let mut common = 1;
    for multiplier in multipliers {
        common = lcm(common, multiplier.den())?;
    }
    Some(common)
}

// Minus so many times the multiplier, or so many times where the sign is to be `negative`.
fn whole_time(negative: bool, common: i128, multiplier: &Frac) -> Option<i128>
    requires { pos 0 <ℤ common }
    ensures { SomeIff result (FitsSigned w128 (time_of negative (nat_abs common) multiplier.now)) (time_of negative (nat_abs common) multiplier.now) }
{
    let share = common / multiplier.den();
    if negative {
        multiplier.num().checked_mul(share)
    } else {
        (-multiplier.num()).checked_mul(share)
    }
}

// The number, with the other sign where it is to be `negative`.
fn signed(negative: bool, common: i128) -> i128
    requires { pos 0 <ℤ common }
    ensures { result ≡ sign_of negative *ℤ common }
{
    if negative { -common } else { common }
}

// Puts so many zeros behind.
fn pad(times: &mut Vec<i128>, count: usize) -> Result<(), LiftStop>
    ensures value { OnOk result (times.new.items ≡ times.old.items ++ zeros integers count) }
    ensures stop { IfErr result (StopsUnless ⊤) }
{
    for _place in 0..count {
        times.push(0)?;
    }
    Ok(())
}

/// The times of the equalities with these multipliers, of the one that they belong to, and of so many later ones.
///
/// `Wide` comes only where the least common denominator is 2^127 or more, or a time leaves `i128`.
pub(crate) fn whole_times(
    alloc: Global,
    negative: bool,
    multipliers: &[Frac],
    later: usize,
) -> Result<Vec<i128>, LiftStop>
    ensures value { IfOk result (λ times. times.items ≡ times_of negative multipliers.now later) }
    ensures in_range { OnOk result (TimesStay negative multipliers.now) }
    ensures stop { IfErr result (StopsUnless (TimesStay negative multipliers.now)) }
{
    let Some(common) = common_denominator(multipliers) else {
        return Err(LiftStop::Wide);
    };
    let mut times = Vec::new(alloc);
    for multiplier in multipliers {
        let Some(time) = whole_time(negative, common, multiplier) else {
            return Err(LiftStop::Wide);
        };
        times.push(time)?;
    }
    times.push(signed(negative, common))?;
    pad(&mut times, later)?;
    Ok(times)
}
