//! What the slices of a candidate have before them: how soon they can be closed.
use crate::directions::candidates::{Candidates, tried};
use crate::directions::ends::Direction;
use crate::directions::node_forms::NodeForms;
use crate::directions::seen::Seen;
use crate::directions::spread::{PARTS, least_width, parts_of, values_of};
use crate::halt::{Halt, passed_over};
use range_dict::{Met, RangeDict};
use spaces::{Form, Original};
use std::alloc::Global;

/// The greatest width in parts that counts.
const WIDEST: i128 = 2 * PARTS;

/// The rank of a part of which nothing is known.
const UNKNOWN: i128 = 3 * PARTS;

/// Whether a form need not be measured: it is wider than some free column and than another form, or has as many slices as are
/// known, and more than one.
fn is_passed_over(
    alloc: Global,
    seen: &Seen,
    candidates: &Candidates,
    form: &[i128],
    least: i128,
) -> Result<bool, Halt> {
    if let Some(values) = values_of(alloc, seen, form)?
        && least_width(&values).is_some_and(|width| width > least)
        && candidates.is_too_wide(&values)
    {
        return Ok(true);
    }
    Ok(match (seen.least_count(form), candidates.count()) {
        (Some(least), Some(count)) => least > 1 && least >= count,
        _ => false,
    })
}

/// Measures a column of a part, and takes it where it is free there or has no value.
fn weigh_free(
    alloc: Global,
    dict: &mut RangeDict,
    seen: &mut Seen,
    candidates: &mut Candidates,
    form: &[i128],
) -> Result<(), Halt> {
    if candidates.is_shown_wide(alloc, seen, form)? {
        return Ok(());
    }
    match tried(alloc, dict, seen, form)? {
        Some(column) if column.direction.count <= 0 || column.varies() => {
            candidates.take_column(alloc, column)
        }
        _ => Ok(()),
    }
}

/// The free columns of a part among the candidates.
fn part_columns(
    alloc: Global,
    dict: &mut RangeDict,
    seen: &mut Seen,
    columns: &[Form<Original>],
) -> Result<Candidates, Halt> {
    let mut candidates = Candidates::new(alloc);
    for form in columns {
        weigh_free(alloc, dict, seen, &mut candidates, form.items())?;
    }
    candidates.take_thinnest(alloc)?;
    Ok(candidates)
}

/// Weighs further forms of a part, and answers the least width of one in parts.
fn weigh_forms(
    alloc: Global,
    dict: &mut RangeDict,
    seen: &mut Seen,
    candidates: &mut Candidates,
    forms: &[Form<Original>],
) -> Result<i128, Halt> {
    let mut least = WIDEST;
    for form in forms {
        if candidates.is_settled() {
            break;
        }
        if is_passed_over(alloc, seen, candidates, form.items(), least)? {
            continue;
        }
        if let Some(candidate) = tried(alloc, dict, seen, form.items())?
            && let Some(width) = &candidate.width
            && candidate.varies()
        {
            least = least.min(parts_of(width));
            candidates.take_thin(alloc, candidate)?;
        }
    }
    Ok(least)
}

/// The rank of a node's part that has a point: 0 where it has a direction without a slice, and else the more the more slices it
/// has, at least two, and the wider its forms are.
fn rank_of_part(
    alloc: Global,
    dict: &mut RangeDict,
    seen: &mut Seen,
    forms: &NodeForms,
) -> Result<i128, Halt> {
    let mut candidates = part_columns(alloc, dict, seen, &forms.columns)?;
    let least = weigh_forms(alloc, dict, seen, &mut candidates, &forms.coordinates)?;
    let limit = candidates.limit_parts().unwrap_or(WIDEST);
    Ok(match candidates.count() {
        Some(count) if count <= 0 => 0,
        Some(1) => PARTS.saturating_add(least.min(limit) / 10),
        _ => WIDEST.saturating_add(least.saturating_sub(PARTS) / 2),
    })
}

/// The rank of the slice at which a form has the value: 0 where it has no point.
fn rank_of_slice(
    alloc: Global,
    dict: &RangeDict,
    form: &[i128],
    value: i128,
    forms: &NodeForms,
) -> Result<i128, Halt> {
    let mut dict = dict.child(alloc, form, value)?;
    let Met::Point(vertex) = dict.meet(alloc)? else {
        return Ok(0);
    };
    let mut seen = Seen::new(alloc);
    seen.add(vertex)?;
    rank_of_part(alloc, &mut dict, &mut seen, forms)
}

/// The rank of a direction: the sum of those of its slices, as far as it stays below a limit.
pub(crate) fn rank_of(
    alloc: Global,
    dict: &RangeDict,
    direction: &Direction,
    forms: &NodeForms,
    limit: i128,
) -> Result<i128, Halt> {
    let mut sum = 0i128;
    for j in 0..direction.count {
        if sum >= limit {
            break;
        }
        let Some(value) = direction.lo.checked_add(j) else {
            return Ok(i128::MAX);
        };
        let form = direction.form.items();
        let rank = passed_over(rank_of_slice(alloc, dict, form, value, forms).map(Some))?;
        sum = sum.saturating_add(rank.unwrap_or(UNKNOWN));
    }
    Ok(sum)
}
