//! What splits leave of how far the forms of a node vary: the sums of squares at the points that were seen.
use crate::directions::ends::Candidate;
use crate::directions::seen::Seen;
use crate::directions::spread::values_of;
use crate::halt::Halt;
use exact_vectors::dot_checked;
use spaces::{Form, Original};
use std::alloc::Global;

/// Takes the mean away from values, so that they lie around 0.
fn centre(values: &mut [i128]) -> Option<()> {
    let mut sum = 0i128;
    for value in values.iter() {
        sum = sum.checked_add(*value)?;
    }
    let mean = sum.checked_div_euclid(values.len() as i128)?;
    for value in values.iter_mut() {
        *value = value.checked_sub(mean)?;
    }
    Some(())
}

/// The values of a form at the points that were seen, around 0, where they stay in their range.
fn centred(alloc: Global, seen: &Seen, form: &[i128]) -> Result<Option<Vec<i128>>, Halt> {
    let Some(mut values) = values_of(alloc, seen, form)? else {
        return Ok(None);
    };
    Ok(match centre(&mut values) {
        Some(()) => Some(values),
        None => None,
    })
}

/// What is left of the sum of the squares of `values` once the part along `along` is taken out; both lie around 0.
fn rest_beside(values: &[i128], along: &[i128]) -> Option<i128> {
    if values.len() != along.len() {
        return None;
    }
    let square = dot_checked(values, values)?;
    let common = dot_checked(values, along)?;
    let length = dot_checked(along, along)?;
    if length == 0 {
        return Some(square);
    }
    square.checked_sub(common.checked_mul(common)?.checked_div_euclid(length)?)
}

/// What a split along a form leaves of the one of the centred `forms` that then varies least, where that is more than the
/// rounding.
fn rest_of(alloc: Global, seen: &Seen, forms: &[Vec<i128>], along: &[i128]) -> Result<i128, Halt> {
    let Some(along) = centred(alloc, seen, along)? else {
        return Ok(i128::MAX);
    };
    let blur = (along.len() as i128).saturating_mul(4);
    let mut least = i128::MAX;
    for values in forms {
        if let Some(rest) = rest_beside(values, &along)
            && rest > blur
        {
            least = least.min(rest);
        }
    }
    Ok(least)
}

/// The values of the forms that stay in their range, each around 0.
fn all_centred(
    alloc: Global,
    seen: &Seen,
    forms: &[Form<Original>],
) -> Result<Vec<Vec<i128>>, Halt> {
    let mut all = Vec::with_capacity(alloc, forms.len())?;
    for form in forms {
        if let Some(values) = centred(alloc, seen, form.items())? {
            all.push(values)?;
        }
    }
    Ok(all)
}

/// For each candidate what a split along it leaves of the form that then varies least.
pub(crate) fn rests_of(
    alloc: Global,
    seen: &Seen,
    forms: &[Form<Original>],
    candidates: &[Candidate],
) -> Result<Vec<Option<i128>>, Halt> {
    let forms = all_centred(alloc, seen, forms)?;
    let mut rests = Vec::with_capacity(alloc, candidates.len())?;
    for candidate in candidates {
        let along = candidate.direction.form.items();
        rests.push(Some(rest_of(alloc, seen, &forms, along)?))?;
    }
    Ok(rests)
}

/// The place of the least number that is left, which is taken away.
pub(crate) fn take_least(rests: &mut [Option<i128>]) -> Option<usize> {
    let mut best = None;
    let mut least = i128::MAX;
    for i in 0..rests.len() {
        if let Some(rest) = rests[i]
            && (best.is_none() || rest < least)
        {
            best = Some(i);
            least = rest;
        }
    }
    *rests.get_mut(best?)? = None;
    best
}
