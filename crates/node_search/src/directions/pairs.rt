//! Sums and differences of two of a frame's short forms, where the points that were seen show that they may be thin.
use crate::directions::candidates::Candidates;
use crate::directions::seen::Seen;
use crate::directions::spread::{joined, values_of};
use crate::directions::thin::{Thin, short_form};
use crate::halt::{Halt, passed_over};
use crate::numbers::factors::add_row;
use node_task::OpenModel;
use range_dict::RangeDict;
use spaces::{Form, Original};
use std::alloc::Global;

/// Two of a frame's short forms, added or taken from one another.
#[derive(Clone, Copy, Debug, Drop)]
struct Pair {
    first: usize,
    second: usize,
    is_sum: bool,
}

/// The form of a pair, over all columns.
fn pair_form(
    alloc: Global,
    model: &OpenModel,
    thin: Thin<'_>,
    pair: Pair,
) -> Result<Form<Original>, Halt> {
    let forms = thin.forms;
    if pair.first >= forms.rows() || pair.second >= forms.rows() {
        return Err(Halt::GivesUp);
    }
    let mut factors = forms.row(pair.first).to_vec(alloc)?;
    let times = if pair.is_sum { 1 } else { -1 };
    add_row(&mut factors, forms.row(pair.second), times).ok_or(Halt::GivesUp)?;
    short_form(alloc, model, thin.short, &factors)
}

/// The values of forms at the points that were seen, where they stay in their range.
fn all_values(
    alloc: Global,
    seen: &Seen,
    forms: &[Form<Original>],
) -> Result<Vec<Option<Vec<i128>>>, Halt> {
    let mut all = Vec::with_capacity(alloc, forms.len())?;
    for form in forms {
        all.push(values_of(alloc, seen, form.items())?)?;
    }
    Ok(all)
}

/// Whether the values of two forms show that a pair of them may be thin.
fn may_be_thin(
    alloc: Global,
    candidates: &Candidates,
    values: &[Option<Vec<i128>>],
    pair: Pair,
) -> Result<bool, Halt> {
    let (Some(Some(first)), Some(Some(second))) = (values.get(pair.first), values.get(pair.second))
    else {
        return Ok(false);
    };
    Ok(match joined(alloc, first, second, pair.is_sum)? {
        Some(values) => !candidates.is_too_wide(&values),
        None => false,
    })
}

/// Puts the sums, or the differences, of one form and each one before it at the end, where they may be thin.
fn push_pairs(
    alloc: Global,
    candidates: &Candidates,
    values: &[Option<Vec<i128>>],
    pairs: &mut Vec<Pair>,
    first: usize,
    is_sum: bool,
) -> Result<(), Halt> {
    for second in 0..first {
        let pair = Pair {
            first,
            second,
            is_sum,
        };
        if may_be_thin(alloc, candidates, values, pair)? {
            pairs.push(pair)?;
        }
    }
    Ok(())
}

/// The sums and the differences of two forms that may be thin.
fn thin_pairs(
    alloc: Global,
    seen: &Seen,
    candidates: &Candidates,
    forms: &[Form<Original>],
) -> Result<Vec<Pair>, Halt> {
    let values = all_values(alloc, seen, forms)?;
    let mut pairs = Vec::new(alloc);
    for first in 0..values.len() {
        push_pairs(alloc, candidates, &values, &mut pairs, first, true)?;
        push_pairs(alloc, candidates, &values, &mut pairs, first, false)?;
    }
    Ok(pairs)
}

/// Weighs the sums and the differences of two of the short forms; `forms` are these over all columns.
pub(crate) fn weigh_pairs(
    alloc: Global,
    model: &OpenModel,
    thin: Thin<'_>,
    forms: &[Form<Original>],
    dict: &mut RangeDict,
    seen: &mut Seen,
    candidates: &mut Candidates,
) -> Result<(), Halt> {
    for pair in thin_pairs(alloc, seen, candidates, forms)? {
        if candidates.is_settled() {
            break;
        }
        if let Some(form) = passed_over(pair_form(alloc, model, thin, pair).map(Some))? {
            candidates.weigh(alloc, dict, seen, form.items())?;
        }
    }
    Ok(())
}
