//! The forms along which a node may be split.
use crate::forms::frame_forms::combine;
use crate::forms::short::Shortener;
use crate::halt::Halt;
use crate::model::{column, lifted};
use crate::numbers::factors::{add_row, divisor_of};
use crate::numbers::quotient::floor;
use node_task::OpenModel;
use reformulate::Frame;
use spaces::{Form, Grid, Original, Work};
use std::alloc::Global;

/// Factors of candidates are smaller than this in size: larger ones would leave the 64 bits of a dictionary.
const LARGEST_FACTOR: i128 = 1 << 40;

/// A frame, and what makes forms shorter by its equalities.
#[derive(Clone, Copy, Drop)]
pub(crate) struct Thin<'a> {
    pub(crate) frame: &'a Frame,
    /// Short forms for its coordinates.
    pub(crate) forms: &'a Grid<Work, i128>,
    pub(crate) short: &'a Shortener,
    /// Further forms that may be thin, over the work columns.
    pub(crate) further: &'a [Vec<i128>],
}

/// The form over all columns that has the values of these factors in the work columns, up to a constant, and is short.
pub(crate) fn short_form(
    alloc: Global,
    model: &OpenModel,
    short: &Shortener,
    factors: &[i128],
) -> Result<Form<Original>, Halt> {
    let mut factors = factors.to_vec(alloc)?;
    short.shorten(&mut factors).ok_or(Halt::GivesUp)?;
    lifted(alloc, model, &factors)
}

/// A form that has the values of work column `j` at the points of a frame, less a constant and over the greatest common
/// divisor of its differences there; none where the column has one value in the frame.
pub(crate) fn column_form(
    alloc: Global,
    model: &OpenModel,
    thin: Thin<'_>,
    j: usize,
) -> Result<Option<Form<Original>>, Halt> {
    let frame = thin.frame;
    let lines = frame.to_work().lines();
    if j >= lines.rows() {
        return Ok(None);
    }
    match divisor_of(lines.row(j)) {
        None => Err(Halt::GivesUp),
        Some(0) => Ok(None),
        Some(1) => Ok(Some(column(alloc, model, j)?)),
        Some(divisor) => {
            let factors = primitive_factors(alloc, thin.forms, lines.row(j), divisor)?;
            Ok(Some(short_form(alloc, model, thin.short, &factors)?))
        }
    }
}

/// A form that has the values of a form over the work columns at the points of a frame, less a constant and over the greatest
/// common divisor of its differences there; none where it has one value in the frame.
pub(crate) fn further_form(
    alloc: Global,
    model: &OpenModel,
    thin: Thin<'_>,
    factors: &[i128],
) -> Result<Option<Form<Original>>, Halt> {
    let lines = thin.frame.to_work().lines();
    let mut line = vec![in alloc; 0; lines.width()]?;
    combine(&mut line, factors, lines).ok_or(Halt::GivesUp)?;
    match divisor_of(&line) {
        None => Err(Halt::GivesUp),
        Some(0) => Ok(None),
        Some(1) => Ok(Some(short_form(alloc, model, thin.short, factors)?)),
        Some(divisor) => {
            let factors = primitive_factors(alloc, thin.forms, &line, divisor)?;
            Ok(Some(short_form(alloc, model, thin.short, &factors)?))
        }
    }
}

/// The factors over the work columns of the form that has these factors, over their greatest common divisor, over the
/// coordinates of a frame.
fn primitive_factors(
    alloc: Global,
    forms: &Grid<Work, i128>,
    line: &[i128],
    divisor: i128,
) -> Result<Vec<i128>, Halt> {
    let mut factors = vec![in alloc; 0; forms.width()]?;
    for k in 0..forms.rows() {
        let times = line
            .get(k)
            .and_then(|item| floor(*item, divisor))
            .ok_or(Halt::GivesUp)?;
        add_row(&mut factors, forms.row(k), times).ok_or(Halt::GivesUp)?;
    }
    Ok(factors)
}

/// Whether each factor is small enough for a dictionary.
pub(crate) fn is_small(form: &[i128]) -> bool {
    form.iter().all(|factor| -LARGEST_FACTOR < *factor && *factor < LARGEST_FACTOR)
}
