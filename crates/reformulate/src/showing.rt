//! The gap of an equality that no point of a frame meets.
ghost use Rattle.std.specs.Prelude.{◌≡◌, ◌≢◌, ◌≤◌, ℤ, pos, ◌-ℤ◌, ◌*ℤ◌, ◌≤ℤ◌, ◌<ℤ◌, get_or, length, IfErr, IfNone, IfOk, IfSome, OnOk, ⊤};
ghost use Rattle.exact_math.specs.Ring.{integers};
ghost use Rattle.exact_vectors.specs.Range.{StaysInRange};
ghost use Rattle.exact_vectors.specs.Vectors.{dot};
ghost use Rattle.row_lifting.specs.Stops.{StopsUnless};
ghost use Rattle.reformulate.specs.Gaps.{sides_of, AreAllZero, IsCeiling, IsFirst, IsGap, IsNearest};
ghost use Rattle.reformulate.specs.GapTimes.{all_times, AreTimes, GapStays, IsMadeBy, IsSignOf, Lacks, RaisedStays, RowStays};

use crate::equality::Equality;
use crate::gap::Gap;
use crate::miss::Miss;
use crate::remainder::multipliers;
use crate::whole_times::whole_times;
use exact_vectors::dot_checked;
use row_lifting::LiftStop;
use sequence::Sequence;
use spaces::{Form, Work};
use std::alloc::Global;
use unimodular_pair::first_nonzero;

// The greatest size of the first value of a split.
const LARGEST: i128 = 1 << 97;

// The least whole number that is at least the quotient.
fn ceiling(number: i128, divisor: i128) -> i128
    requires { pos 0 <ℤ divisor }
    ensures above { (divisor *ℤ (result -ℤ pos 1)) <ℤ number }
    ensures below { number ≤ℤ (divisor *ℤ result) }
{
    let whole = number / divisor;
    if number % divisor > 0 {
        whole + 1
    } else {
        whole
    }
}

// The number, or the nearer end of the range where it is past it.
fn nearest(number: i128) -> i128
    ensures { IsNearest number result }
{
    if number > LARGEST {
        LARGEST
    } else if number < -LARGEST {
        -LARGEST
    } else {
        number
    }
}

// The sides of the equalities.
fn sides_of(alloc: Global, equalities: &[Equality]) -> Result<Vec<i128>, LiftStop>
    ensures value { IfOk result (λ sides. sides.items ≡ sides_of equalities.now) }
    ensures stop { IfErr result (StopsUnless ⊤) }
{
    let mut sides = Vec::with_capacity(alloc, equalities.len())?;
    for equality in equalities {
        sides.push(equality.side)?;
    }
    Ok(sides)
}

// The first equality whose form is not all 0.
fn first_form(equalities: &[Equality]) -> Option<usize>
    ensures some { IfSome result (IsFirst equalities.now) }
    ensures none { IfNone result (AreAllZero equalities.now) }
{
    for place in 0..equalities.len() {
        let factors = equalities[place].form.items();
        if first_nonzero(factors, factors.len()).is_some() {
            return Some(place);
        }
    }
    None
}

// The gap with this form, these times and this divisor.
fn gap_of(
    alloc: Global,
    equalities: &[Equality],
    form: Form<Work>,
    times: Vec<i128>,
    divisor: i128,
) -> Result<Gap, LiftStop>
    requires positive { pos 0 <ℤ divisor }
    requires as_many { length times.items ≡ length equalities.now }
    ensures form { IfOk result (λ gap. gap.form ≡ form) }
    ensures times { IfOk result (λ gap. gap.times ≡ times.items) }
    ensures divisor { IfOk result (λ gap. gap.divisor ≡ divisor) }
    ensures lo { IfOk result (λ gap. IsCeiling (dot integers times.items (sides_of equalities.now)) divisor gap.lo) }
    ensures in_range { OnOk result (StaysInRange (pos 0) times.items (sides_of equalities.now)) }
    ensures stop { IfErr result (StopsUnless (StaysInRange (pos 0) times.items (sides_of equalities.now))) }
{
    let sides = sides_of(alloc, equalities)?;
    let Some(side) = dot_checked(times.as_slice(), sides.as_slice()) else {
        return Err(LiftStop::Wide);
    };
    let lo = nearest(ceiling(side, divisor));
    Ok(Gap {
        form,
        lo,
        times: Sequence::from_vec(times),
        divisor,
    })
}

// The gap where gathering leaves a value.
fn row_gap(
    alloc: Global,
    equalities: &[Equality],
    at: usize,
    miss: &Miss,
    times: Vec<i128>,
) -> Result<Gap, LiftStop>
    requires lacks { Lacks (length miss.now.row) equalities.now at miss.now }
    requires times { AreTimes (length miss.now.row) equalities.now at miss.now times.items }
    requires some { miss.now.value ≢ pos 0 }
    ensures ok { IfOk result (IsGap (length miss.now.row) equalities.now) }
    ensures made { IfOk result (IsMadeBy (length miss.now.row) equalities.now at miss.now times.items) }
    ensures stop { IfErr result (StopsUnless (RowStays equalities.now miss.now.value (get_or times.items at (pos 0)) times.items)) }
{
    let Some(divisor) = times[at].checked_mul(miss.value) else {
        return Err(LiftStop::Wide);
    };
    let form = Form::of(miss.row.items().to_vec(alloc)?);
    gap_of(alloc, equalities, form, times, divisor)
}

// The gap where all values are 0: the divisor is one more than the side, and is added to the time of an equality.
fn raised_gap(
    alloc: Global,
    equalities: &[Equality],
    at: usize,
    miss: &Miss,
    times: Vec<i128>,
) -> Result<Gap, LiftStop>
    requires lacks { Lacks (length miss.now.row) equalities.now at miss.now }
    requires times { AreTimes (length miss.now.row) equalities.now at miss.now times.items }
    requires none { miss.now.value ≡ pos 0 }
    ensures ok { IfOk result (IsGap (length miss.now.row) equalities.now) }
    ensures made { IfOk result (IsMadeBy (length miss.now.row) equalities.now at miss.now times.items) }
    ensures stop { IfErr result (StopsUnless (RaisedStays equalities.now times.items)) }
{
    let sides = sides_of(alloc, equalities)?;
    let Some(value) = dot_checked(times.as_slice(), sides.as_slice()) else {
        return Err(LiftStop::Wide);
    };
    let Some(divisor) = value.checked_add(1) else {
        return Err(LiftStop::Wide);
    };
    let Some(place) = first_form(equalities) else {
        let form = Form::of(vec![in alloc; 0i128; miss.row.items().len()]?);
        return gap_of(alloc, equalities, form, times, divisor);
    };
    let Some(time) = times[place].checked_add(divisor) else {
        return Err(LiftStop::Wide);
    };
    let mut times = times;
    times[place] = time;
    let form = Form::of(equalities[place].form.items().to_vec(alloc)?);
    gap_of(alloc, equalities, form, times, divisor)
}

/// Whether the times get the other sign: then the divisor is above 0, or the side where there is no value.
pub(crate) fn is_negative(miss: &Miss) -> bool
    requires { (q : ℤ) → miss.now.value *ℤ q ≢ miss.now.rest }
    ensures { IsSignOf miss.now result }
{
    if miss.value == 0 {
        miss.rest < 0
    } else {
        miss.value < 0
    }
}

/// The gap of the equality `at`, from what it lacks at the points of those before it. The times of those come by lifting its
/// form, less a multiple of the row.
///
/// `Wide` comes only where a number on the way to the gap leaves its range.
pub(crate) fn shown_gap(
    alloc: Global,
    equalities: &[Equality],
    at: usize,
    miss: &Miss,
    negative: bool,
) -> Result<Gap, LiftStop>
    requires narrow { length miss.now.row ≤ 256 }
    requires lacks { Lacks (length miss.now.row) equalities.now at miss.now }
    requires sign { IsSignOf miss.now negative }
    ensures ok { IfOk result (IsGap (length miss.now.row) equalities.now) }
    ensures made { IfOk result (IsMadeBy (length miss.now.row) equalities.now at miss.now (all_times equalities.now at miss.now negative)) }
    ensures stop { IfErr result (StopsUnless (GapStays equalities.now at miss.now negative)) }
{
    let earlier = &equalities[..at];
    let fractions = multipliers(
        alloc,
        earlier,
        equalities[at].form.items(),
        miss.value,
        miss.row.items(),
    )?;
    let later = equalities.len() - at - 1;
    let times = whole_times(alloc, negative, fractions.items(), later)?;
    if miss.value == 0 {
        raised_gap(alloc, equalities, at, miss, times)
    } else {
        row_gap(alloc, equalities, at, miss, times)
    }
}
