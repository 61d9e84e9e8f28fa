//! Forms that are thin where the rows of a root hold its points near to a lattice of few directions.
ghost use Rattle.std.specs.List.{All};
ghost use Rattle.std.specs.Prelude.{◌≡◌, length, IfOk};

use crate::halt::Halt;
use crate::numbers::factors::add_row;
use crate::numbers::quotient::nearest;
use node_task::OpenModel;
use reformulate::{Equalities, Equality, Frame, Framed};
use sequence::{NoMemory, Sequence};
use spaces::{Form, Grid, Work};
use std::alloc::Global;

/// The factors of a row are divided so that they come to about this much.
const LARGEST_FACTOR: u128 = 1000;

/// How many columns and rows together are reduced at most: more take seconds.
const MOST_COLUMNS: usize = 64;

/// The size of the largest factor.
fn largest_of(factors: &[i128]) -> u128 {
    let mut largest = 0;
    for factor in factors {
        largest = largest.max(factor.unsigned_abs());
    }
    largest
}

/// The factors over a number that makes them small, rounded.
fn scaled(alloc: Global, factors: &[i128]) -> Result<Vec<i128>, Halt> {
    let divisor = i128::try_from(largest_of(factors) / LARGEST_FACTOR + 1).ok();
    let divisor = divisor.ok_or(Halt::GivesUp)?;
    let mut small = Vec::with_capacity(alloc, factors.len())?;
    for factor in factors {
        small.push(nearest(*factor, divisor).ok_or(Halt::GivesUp)?)?;
    }
    Ok(small)
}

/// The factors of the rows that are no equalities, and of the costs, where there are some, made small.
fn loose_rows(alloc: Global, model: &OpenModel) -> Result<Vec<Vec<i128>>, Halt> {
    let work = &model.work;
    let mut rows = Vec::new(alloc);
    for i in 0..work.rows() {
        if work.low(i).is_none() || work.low(i) != work.high(i) {
            rows.push(scaled(alloc, work.row(i))?)?;
        }
    }
    if work.cost().iter().any(|factor| *factor != 0) {
        rows.push(scaled(alloc, work.cost())?)?;
    }
    Ok(rows)
}

/// The form with further factors behind its own, up to `width` of them: 0, and -1 at the place.
fn widened(
    alloc: Global,
    factors: &[i128],
    width: usize,
    place: Option<usize>,
) -> Result<Form<Work>, Halt>
    ensures { IfOk result (λ form. length form ≡ width) }
{
    let mut wide = vec![in alloc; 0; width]?;
    if factors.len() > width {
        return Err(Halt::GivesUp);
    }
    wide[..factors.len()].copy_from_slice(factors);
    if let Some(place) = place {
        *wide.get_mut(place).ok_or(Halt::GivesUp)? = -1;
    }
    Ok(Form::of(wide))
}

/// The equalities over columns of which there are more.
fn widened_equalities(
    alloc: Global,
    equalities: &Equalities,
    width: usize,
) -> Result<Equalities, Halt>
    ensures { IfOk result (All (λ equality. length equality.form ≡ width)) }
{
    let mut wide = Sequence::new(alloc);
    for equality in equalities.items() {
        let form = widened(alloc, equality.form.items(), width, None)?;
        wide.push(Equality {
            form,
            side: equality.side,
        })?;
    }
    Ok(wide)
}

/// The equalities, and for each row one that has its value in a column behind the others.
fn with_values(
    alloc: Global,
    equalities: &Equalities,
    rows: &[Vec<i128>],
    columns: usize,
    width: usize,
) -> Result<Equalities, Halt>
    ensures { IfOk result (All (λ equality. length equality.form ≡ width)) }
{
    let mut all = widened_equalities(alloc, equalities, width)?;
    for k in 0..rows.len() {
        let place = columns.checked_add(k).ok_or(Halt::GivesUp)?;
        let form = widened(alloc, &rows[k], width, Some(place))?;
        all.push(Equality { form, side: 0 })?;
    }
    Ok(all)
}

/// A form over the columns and the values of the rows, as one over the columns alone.
fn over_columns(
    alloc: Global,
    form: &[i128],
    rows: &[Vec<i128>],
    columns: usize,
) -> Result<Vec<i128>, Halt> {
    if form.len() < columns {
        return Err(Halt::GivesUp);
    }
    let (own, values) = form.split_at(columns);
    let mut factors = own.to_vec(alloc)?;
    for k in 0..rows.len() {
        let times = *values.get(k).ok_or(Halt::GivesUp)?;
        add_row(&mut factors, &rows[k], times).ok_or(Halt::GivesUp)?;
    }
    Ok(factors)
}

/// Each form over the columns alone.
fn all_over_columns(
    alloc: Global,
    forms: &Grid<Work, i128>,
    rows: &[Vec<i128>],
    columns: usize,
) -> Result<Vec<Vec<i128>>, Halt> {
    let mut all = Vec::with_capacity(alloc, forms.rows())?;
    for i in 0..forms.rows() {
        all.push(over_columns(alloc, forms.row(i), rows, columns)?)?;
    }
    Ok(all)
}

/// The forms, where numbers stay in their range.
fn found_forms(
    alloc: Global,
    model: &OpenModel,
    equalities: &Equalities,
) -> Result<Vec<Vec<i128>>, Halt> {
    let rows = loose_rows(alloc, model)?;
    let columns = model.work.columns();
    let width = columns.checked_add(rows.len()).ok_or(Halt::GivesUp)?;
    if rows.is_empty() || width > MOST_COLUMNS {
        return Ok(Vec::new(alloc));
    }
    let all = with_values(alloc, equalities, &rows, columns, width)?;
    match Frame::of(alloc, width, &all)? {
        Framed::Frame(frame) => all_over_columns(alloc, frame.back(), &rows, columns),
        Framed::NoIntegerPoint(_gap) => Ok(Vec::new(alloc)),
    }
}

/// The coordinates of a frame whose vectors are short together with their values of the rows that are no equalities, as forms
/// over the work columns (Krishnamoorthy and Pataki, Column basis reduction and decomposable knapsack problems, 2009). The
/// equalities are those of the model.
///
/// There are none where all rows are equalities and nothing costs, where there are more than 64 columns and such rows, and where
/// numbers leave their range.
pub fn row_forms(
    alloc: Global,
    model: &OpenModel,
    equalities: &Equalities,
) -> Result<Vec<Vec<i128>>, NoMemory> {
    match found_forms(alloc, model, equalities) {
        Ok(forms) => Ok(forms),
        Err(Halt::NoMemory) => Err(NoMemory),
        Err(Halt::GivesUp) => Ok(Vec::new(alloc)),
    }
}
