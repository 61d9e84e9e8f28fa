//! Whole points next to a vertex, which are tried before any split.
use crate::directions::thin::Thin;
use crate::halt::Halt;
use crate::model::work_value;
use crate::numbers::quotient::floor;
use exact_vectors::{add_product, dot_checked};
use node_task::OpenModel;
use range_dict::Vertex;
use reformulate::Frame;
use spaces::{Grid, Vect, Work};
use std::alloc::Global;

/// How a number is rounded.
#[derive(Clone, Copy, Debug, PartialEq, Eq)]
pub(crate) enum Rounding {
    Nearest,
    Down,
    Up,
}

/// The values of a vertex, where all of them are whole.
pub(crate) fn whole_values(alloc: Global, vertex: &Vertex) -> Result<Option<Vec<i128>>, Halt> {
    let denominator = vertex.denominator;
    if denominator <= 0 {
        return Ok(None);
    }
    let mut values = Vec::with_capacity(alloc, vertex.numerators.len())?;
    for numerator in &vertex.numerators {
        if numerator.rem_euclid(denominator) != 0 {
            return Ok(None);
        }
        values.push(numerator.div_euclid(denominator))?;
    }
    Ok(Some(values))
}

/// The whole number next to a numerator over a denominator.
fn rounded(rounding: Rounding, numerator: i128, denominator: i128) -> Option<i128> {
    match rounding {
        Rounding::Down => floor(numerator, denominator),
        Rounding::Up => floor(
            numerator.checked_add(denominator.checked_sub(1)?)?,
            denominator,
        ),
        Rounding::Nearest => floor(
            numerator.checked_mul(2)?.checked_add(denominator)?,
            denominator.checked_mul(2)?,
        ),
    }
}

/// The values of a vertex in the work columns less the base of a frame, as numerators over the vertex's denominator.
pub(crate) fn shifted(
    alloc: Global,
    model: &OpenModel,
    frame: &Frame,
    vertex: &Vertex,
) -> Result<Option<Vec<i128>>, Halt> {
    let base = frame.to_work().base().items();
    let mut values = Vec::with_capacity(alloc, base.len())?;
    for j in 0..base.len() {
        let Some(value) = shifted_value(model, vertex, j, base[j]) else {
            return Ok(None);
        };
        values.push(value)?;
    }
    Ok(Some(values))
}

/// The value of a work column less a whole number, as a numerator.
fn shifted_value(model: &OpenModel, vertex: &Vertex, j: usize, base: i128) -> Option<i128> {
    let numerator = work_value(model, &vertex.numerators, j)?;
    add_product(numerator, base.checked_neg()?, vertex.denominator)
}

/// The coordinates of a point in a frame, rounded.
fn rounded_coordinates(
    alloc: Global,
    forms: &Grid<Work, i128>,
    shifted: &[i128],
    denominator: i128,
    rounding: Rounding,
) -> Result<Option<Vec<i128>>, Halt> {
    if shifted.len() != forms.width() {
        return Ok(None);
    }
    let mut y = Vec::with_capacity(alloc, forms.rows())?;
    for k in 0..forms.rows() {
        let value = dot_checked(forms.row(k), shifted).and_then(|numerator| rounded(
            rounding,
            numerator,
            denominator,
        ));
        match value {
            Some(value) => y.push(value)?,
            None => return Ok(None),
        }
    }
    Ok(Some(y))
}

/// The values of all columns at the whole point of a frame that is next to a vertex, whose shifted values are given.
pub(crate) fn rounded_point(
    alloc: Global,
    model: &OpenModel,
    thin: Thin<'_>,
    shifted: &[i128],
    denominator: i128,
    rounding: Rounding,
) -> Result<Option<Vec<i128>>, Halt> {
    let Some(y) = rounded_coordinates(alloc, thin.forms, shifted, denominator, rounding)? else {
        return Ok(None);
    };
    let frame = thin.frame;
    if y.len() != frame.to_work().lines().width() {
        return Ok(None);
    }
    let work = frame.to_work().apply(alloc, &Vect::of(y))?;
    if work.items().len() != model.map.lines().width() {
        return Ok(None);
    }
    let point = model.map.apply(alloc, &work)?;
    Ok(Some(point.items().to_vec(alloc)?))
}
