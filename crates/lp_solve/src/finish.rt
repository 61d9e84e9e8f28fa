//! The answers that the last dictionary shows.
ghost use Rattle.std.specs.Prelude.{◌≡◌, ◌+◌, ◌<◌, ◌≤◌, ◌^◌, [], ◌∷◌, length, get_or, IfOk};
ghost use Rattle.exact_math.specs.RationalRing.{rationals};
ghost use Rattle.exact_vectors.specs.Vectors.{negate};
ghost use Rattle.lp_dict.specs.Dictionaries.{entry_at, one};
ghost use Rattle.lp_solve.specs.Rule.{form_at};
ghost use Rattle.lp_solve.specs.Values.{value_of, constants, vertex, form_multipliers, row_multipliers};

use crate::answer::{Point, Solved, Weights};
use frac128::Frac;
use lp_dict::Dict;
use sequence::NoMemory;
use std::alloc::Global;

// The constant of the row in which the variable is basic, 0 where it is not.
fn basic_constant(dict: &Dict, rows: usize, columns: usize, variable: usize) -> Frac
    requires rows { rows ≡ length dict.now.basic }
    requires columns { columns ≡ length dict.now.outside }
    requires height { length dict.now.rows ≡ length dict.now.basic + 1 }
    ensures { result ≡ value_of dict.now.basic (constants dict.now) variable }
{
    for i in 0..rows {
        if dict.basic(i) as usize == variable {
            return dict.entry(i, columns);
        }
    }
    Frac::whole(0)
}

// The row's entry in the column of the variable, 0 where it is not outside.
fn outside_entry(dict: &Dict, row: usize, columns: usize, variable: usize) -> Frac
    requires row_there { row ≤ length dict.now.basic }
    requires columns { columns ≡ length dict.now.outside }
    requires width { length (get_or dict.now.rows row []) ≡ length dict.now.outside + 1 }
    ensures { result ≡ value_of dict.now.outside (get_or dict.now.rows row []) variable }
{
    for j in 0..columns {
        if dict.outside(j) as usize == variable {
            return dict.entry(row, j);
        }
    }
    Frac::whole(0)
}

// The multiplier of a slack in the row of a slack below 0.
fn row_multiplier(dict: &Dict, row: usize, columns: usize, variable: usize) -> Frac
    requires row_there { row < length dict.now.basic }
    requires columns { columns ≡ length dict.now.outside }
    requires width { length (get_or dict.now.rows row []) ≡ length dict.now.outside + 1 }
    ensures { result ≡ value_of (get_or dict.now.basic row 0 ∷ dict.now.outside) (one ∷ negate rationals (get_or dict.now.rows row [])) variable }
{
    if dict.basic(row) as usize == variable {
        return Frac::whole(1);
    }
    outside_entry(dict, row, columns, variable).neg()
}

// The point at which the variables outside are 0.
fn vertex_of(alloc: Global, dict: &Dict, rows: usize, columns: usize) -> Result<Point, NoMemory>
    requires rows { rows ≡ length dict.now.basic }
    requires columns { columns ≡ length dict.now.outside }
    requires height { length dict.now.rows ≡ length dict.now.basic + 1 }
    ensures { IfOk result (λ point. point ≡ vertex dict.now) }
{
    let mut point = Point::new(alloc);
    for v in 0..columns {
        point.push(basic_constant(dict, rows, columns, v))?;
    }
    Ok(point)
}

// The form's entries in the columns of the slacks.
fn multipliers_of_form(
    alloc: Global,
    dict: &Dict,
    rows: usize,
    columns: usize,
) -> Result<Weights, NoMemory>
    requires rows { rows ≡ length dict.now.basic }
    requires columns { columns ≡ length dict.now.outside }
    requires small { rows + columns < 2 ^ 63 }
    requires width { length (get_or dict.now.rows (length dict.now.basic) []) ≡ length dict.now.outside + 1 }
    ensures { IfOk result (λ weights. weights ≡ form_multipliers dict.now) }
{
    let mut weights = Weights::new(alloc);
    for i in 0..rows {
        weights.push(outside_entry(dict, rows, columns, columns + i))?;
    }
    Ok(weights)
}

// 1 for the row's slack, and minus the row's entries for the others.
fn multipliers_of_row(
    alloc: Global,
    dict: &Dict,
    row: usize,
    rows: usize,
    columns: usize,
) -> Result<Weights, NoMemory>
    requires rows { rows ≡ length dict.now.basic }
    requires columns { columns ≡ length dict.now.outside }
    requires small { rows + columns < 2 ^ 63 }
    requires row_there { row < length dict.now.basic }
    requires width { length (get_or dict.now.rows row []) ≡ length dict.now.outside + 1 }
    ensures { IfOk result (λ weights. weights ≡ row_multipliers dict.now row) }
{
    let mut weights = Weights::new(alloc);
    for i in 0..rows {
        weights.push(row_multiplier(dict, row, columns, columns + i))?;
    }
    Ok(weights)
}

/// The vertex, its value and the multipliers of the form.
pub(crate) fn least(
    alloc: Global,
    dict: &Dict,
    rows: usize,
    columns: usize,
) -> Result<Solved, NoMemory>
    requires rows { rows ≡ length dict.now.basic }
    requires columns { columns ≡ length dict.now.outside }
    requires small { rows + columns < 2 ^ 63 }
    requires height { length dict.now.rows ≡ length dict.now.basic + 1 }
    requires width { length (get_or dict.now.rows (length dict.now.basic) []) ≡ length dict.now.outside + 1 }
    ensures { IfOk result (λ solved. solved ≡ Solved.Least (vertex dict.now) (form_at dict.now (length dict.now.outside)) (form_multipliers dict.now)) }
{
    let point = vertex_of(alloc, dict, rows, columns)?;
    let multipliers = multipliers_of_form(alloc, dict, rows, columns)?;
    Ok(Solved::Least {
        point,
        value: dict.entry(rows, columns),
        multipliers,
    })
}

/// The multipliers of a row whose slack is below 0 at each point.
pub(crate) fn empty(
    alloc: Global,
    dict: &Dict,
    row: usize,
    rows: usize,
    columns: usize,
) -> Result<Solved, NoMemory>
    requires rows { rows ≡ length dict.now.basic }
    requires columns { columns ≡ length dict.now.outside }
    requires small { rows + columns < 2 ^ 63 }
    requires row_there { row < length dict.now.basic }
    requires width { length (get_or dict.now.rows row []) ≡ length dict.now.outside + 1 }
    ensures { IfOk result (λ solved. solved ≡ Solved.Empty (row_multipliers dict.now row)) }
{
    let multipliers = multipliers_of_row(alloc, dict, row, rows, columns)?;
    Ok(Solved::Empty { multipliers })
}
