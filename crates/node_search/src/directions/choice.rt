//! The choice of the direction along which a node is split.
use crate::directions::binary::binary_direction;
use crate::directions::candidates::Candidates;
use crate::directions::ends::{Candidate, Direction};
use crate::directions::middle::add_middle;
use crate::directions::node_forms::NodeForms;
use crate::directions::outlook::rank_of;
use crate::directions::pairs::weigh_pairs;
use crate::directions::rests::{rests_of, take_least};
use crate::directions::seen::Seen;
use crate::directions::thin::{Thin, further_form};
use crate::halt::{Halt, passed_over};
use crate::numbers::factors::divisor_of;
use node_task::{OpenModel, Task};
use range_dict::RangeDict;
use spaces::{Form, Original};
use std::alloc::Global;

/// How many candidates are tried by the programs of their slices.
const MOST_TRIED: usize = 4;

/// How many slices of a candidate are tried at most.
const MOST_SLICES: i128 = 8;

/// Measures the free columns.
fn weigh_columns(
    alloc: Global,
    columns: &[Form<Original>],
    dict: &mut RangeDict,
    seen: &mut Seen,
    candidates: &mut Candidates,
) -> Result<(), Halt> {
    for form in columns {
        candidates.weigh_column(alloc, dict, seen, form.items())?;
    }
    Ok(())
}

/// Weighs the coordinates of a frame, the last one first.
fn weigh_coordinates(
    alloc: Global,
    coordinates: &[Form<Original>],
    dict: &mut RangeDict,
    seen: &mut Seen,
    candidates: &mut Candidates,
) -> Result<(), Halt> {
    for form in coordinates.iter().rev() {
        if candidates.is_settled() {
            break;
        }
        candidates.weigh(alloc, dict, seen, form.items())?;
    }
    Ok(())
}

/// Weighs the further forms.
fn weigh_further(
    alloc: Global,
    model: &OpenModel,
    thin: Thin<'_>,
    dict: &mut RangeDict,
    seen: &mut Seen,
    candidates: &mut Candidates,
) -> Result<(), Halt> {
    for factors in thin.further.iter().rev() {
        if candidates.is_settled() {
            break;
        }
        if let Some(form) = passed_over(further_form(alloc, model, thin, factors))? {
            candidates.weigh(alloc, dict, seen, form.items())?;
        }
    }
    Ok(())
}

/// Weighs the free columns of two values, where they have fewer slices than what is known.
fn weigh_binaries(
    alloc: Global,
    model: &OpenModel,
    task: Task<'_>,
    thin: Thin<'_>,
    dict: &RangeDict,
    seen: &mut Seen,
    candidates: &mut Candidates,
) -> Result<(), Halt> {
    let lines = thin.frame.to_work().lines();
    for j in 0..lines.rows() {
        if candidates.count().is_some_and(|count| count <= 2) {
            break;
        }
        if divisor_of(lines.row(j)) == Some(1)
            && let Some(direction) = passed_over(binary_direction(
                alloc, model, task, dict, seen, j,
            ))?
        {
            let width = None;
            candidates.take(alloc, Candidate { direction, width })?;
        }
    }
    Ok(())
}

/// The candidates with the fewest slices among the coordinates of a frame, the further forms, sums and differences of two
/// coordinates, and the thinnest free columns. None is wider than a free column whose width is known.
fn candidates_of(
    alloc: Global,
    model: &OpenModel,
    task: Task<'_>,
    thin: Thin<'_>,
    forms: &NodeForms,
    dict: &mut RangeDict,
    seen: &mut Seen,
) -> Result<Candidates, Halt> {
    let mut candidates = Candidates::new(alloc);
    let NodeForms {
        columns,
        coordinates,
    } = forms;
    weigh_columns(alloc, columns, dict, seen, &mut candidates)?;
    weigh_coordinates(alloc, coordinates, dict, seen, &mut candidates)?;
    weigh_further(alloc, model, thin, dict, seen, &mut candidates)?;
    if !candidates.is_settled() {
        weigh_pairs(alloc, model, thin, coordinates, dict, seen, &mut candidates)?;
    }
    candidates.take_thinnest(alloc)?;
    if candidates.is_blurred {
        weigh_binaries(alloc, model, task, thin, dict, seen, &mut candidates)?;
    }
    Ok(candidates)
}

/// The place of the candidate whose slices have the best outlook, among the first ones by what their splits leave.
fn best_place(
    alloc: Global,
    dict: &RangeDict,
    forms: &NodeForms,
    rests: &mut [Option<i128>],
    candidates: &[Candidate],
) -> Result<usize, Halt> {
    let mut best = 0;
    let mut least = i128::MAX;
    for _try in 0..MOST_TRIED {
        let Some(place) = take_least(rests) else {
            break;
        };
        let Some(candidate) = candidates.get(place) else {
            break;
        };
        let rank = rank_of(alloc, dict, &candidate.direction, forms, least)?;
        if rank < least {
            best = place;
            least = rank;
        }
        if least <= 0 {
            break;
        }
    }
    Ok(best)
}

/// The place of the candidate that is chosen among those of one count.
fn chosen(
    alloc: Global,
    dict: &RangeDict,
    seen: &Seen,
    forms: &NodeForms,
    candidates: &[Candidate],
) -> Result<usize, Halt> {
    let count = match candidates.first() {
        Some(first) if candidates.len() > 1 => first.direction.count,
        _ => return Ok(0),
    };
    if count <= 0 {
        return Ok(0);
    }
    let mut rests = rests_of(alloc, seen, &forms.coordinates, candidates)?;
    if count > MOST_SLICES {
        return Ok(take_least(&mut rests).unwrap_or(0));
    }
    best_place(alloc, dict, forms, &mut rests, candidates)
}

/// The direction with the fewest slices among the candidates that are at most as wide as each free column, of several the one
/// whose slices are nearest to being closed.
pub(crate) fn thin_direction(
    alloc: Global,
    model: &OpenModel,
    task: Task<'_>,
    thin: Thin<'_>,
    dict: &mut RangeDict,
    seen: &mut Seen,
) -> Result<Option<Direction>, Halt> {
    let forms = NodeForms::of(alloc, model, thin)?;
    let mut candidates = candidates_of(alloc, model, task, thin, &forms, dict, seen)?;
    let place = passed_over(chosen(alloc, dict, seen, &forms, &candidates.best).map(Some))?;
    let place = place.unwrap_or(0);
    if place >= candidates.best.len() {
        return Ok(None);
    }
    let Candidate { direction, width } = candidates.best.swap_remove(place);
    if let Some(width) = width {
        add_middle(alloc, model, task, thin, dict, seen, &width)?;
    }
    Ok(Some(direction))
}
