//! What the greatest slacks of the inequalities show of the widths of all forms.
ghost use Rattle.std.specs.Prelude.{◌≡◌, ℕ, ◌+◌, ◌-◌, ◌^◌, ◌<◌, ◌≤◌, pos, All, length, IfOk, IsTrue};
ghost use Rattle.exact_math.specs.Rational.{whole, ◌≤ℚ◌};
ghost use Rattle.frac128.specs.Range.{IsNarrow};
ghost use Rattle.generalised_reduce.specs.Ready.{IsReady};
ghost use Rattle.norm_gauge.specs.Widths.{Has, polytope_of};
ghost use Rattle.spaces.specs.Tables.{row_at, rows_in};
ghost use Rattle.thin_columns.specs.Sizes.{greatest_size, sloping};
ghost use Rattle.thin_columns.specs.Steps.{inequality_at, IsBelowForms, IsSlackIn, IsStepOf, RowAllows};

use crate::stop::ColumnStop;
use frac128::{Frac, Wide};
use lp_dict::System;
use lp_solve::{Solved, minimise};
use sequence::NoMemory;
use spaces::{Form, Grid, Kernel};
use std::alloc::Global;

/// The greatest exponent of four that is used, so that no number leaves 128 bits.
const MOST_FOURS: usize = 20;

/// The least denominator of a width that is rounded.
const LONG: u128 = 1 << 80;

/// By what the terms of such a width are divided.
const UNIT: u128 = 1 << 48;

// The greatest size of an entry.
fn reach_of(entries: &[i128]) -> u128
    requires { All IsNarrow entries.now }
    ensures size { result ≡ greatest_size entries.now }
    ensures narrow { result < 2 ^ 127 }
{
    let Some((first, rest)) = entries.split_first() else {
        return 0;
    };
    let others = reach_of(rest);
    first.unsigned_abs().max(others)
}

// How many rows have an entry other than 0.
fn sloping_rows(rows: &Grid<Kernel, i128>) -> usize
    requires { All IsNarrow rows.now.items }
    ensures { result ≡ sloping (rows_in rows.now) }
{
    let mut count = 0;
    for i in 0..rows.rows() {
        if reach_of(rows.row(i)) != 0 {
            count += 1;
        }
    }
    count
}

// A power of four that is at most 4^(dimension-1).
fn power_of_four(dimension: usize) -> u128
    requires { 0 < dimension }
    ensures positive { 0 < result }
    ensures most { result ≤ 4 ^ (dimension - 1) }
    ensures small { result ≤ 4 ^ 20 }
{
    let exponent = (dimension - 1).min(MOST_FOURS);
    4u128.pow(exponent as u32)
}

// A number that is at least the width and hardly more: the width itself where its denominator is short, else one with shorter
// terms, so that its products stay in range. The width is a difference, and its denominator may be a product of two.
fn rounded_up(width: &Frac) -> Result<Frac, Wide>
    requires { whole (pos 0) ≤ℚ width.now }
    ensures { IfOk result (λ rounded. width.now ≤ℚ rounded) }
{
    let size = width.num().unsigned_abs();
    let divisor = width.den().unsigned_abs();
    if divisor < LONG {
        return Ok(*width);
    }
    let rounded = Frac::new((size / UNIT + 1) as i128, (divisor / UNIT) as i128)?;
    Ok(rounded)
}

// So many times the room of which twice the power of four is the width, rounded up where it is long.
fn step_of(dimension: usize, count: usize, width: &Frac) -> Result<Frac, Wide>
    requires some { 0 < dimension }
    requires not_negative { whole (pos 0) ≤ℚ width.now }
    ensures { IfOk result (IsStepOf dimension count width.now) }
{
    let power = power_of_four(dimension);
    let width = rounded_up(width)?;
    let room = width.div(&Frac::whole((2 * power) as i128))?;
    let step = room.mul(&Frac::whole(count as i128))?;
    Ok(step)
}

// The form of a row.
fn form_of_row(alloc: Global, rows: &Grid<Kernel, i128>, i: usize) -> Result<Form<Kernel>, NoMemory>
    requires { i < rows.now.rows }
    ensures row { IfOk result (λ form. form ≡ row_at rows.now i) }
    ensures width { IfOk result (λ form. length form ≡ rows.now.width) }
{
    Ok(Form::of(Vec::from_slice(alloc, rows.row(i))?))
}

// The greatest slack of inequality `i`.
fn greatest_slack(alloc: Global, system: &System, i: usize) -> Result<Frac, ColumnStop>
    requires ready { IsReady system.now.rows system.now.limits }
    requires inside { i < system.now.rows.rows }
    ensures { IfOk result (IsSlackIn (Has (polytope_of system.now.rows system.now.limits)) (inequality_at system.now.rows system.now.limits i)) }
{
    let form = form_of_row(alloc, &system.rows, i)?;
    match minimise(alloc, system, &form)? {
        Solved::Least {
            point: _point,
            value,
            multipliers: _multipliers,
        } => Ok(Frac::whole(system.limits.items()[i]).sub(&value)?),
        Solved::Empty {
            multipliers: _multipliers,
        } => unreachable!(),
    }
}

// Whether inequality `i` allows the step.
fn row_allows(alloc: Global, system: &System, step: &Frac, i: usize) -> Result<bool, ColumnStop>
    requires ready { IsReady system.now.rows system.now.limits }
    requires inside { i < system.now.rows.rows }
    ensures { IfOk result (λ shown. IsTrue shown → RowAllows system.now.rows system.now.limits step.now i) }
{
    let reach = reach_of(system.rows.row(i));
    if reach == 0 {
        return Ok(true);
    }
    let needed = Frac::whole(reach as i128).mul(step)?;
    let slack = greatest_slack(alloc, system, i)?;
    Ok(needed <= slack)
}

// Whether each inequality does.
fn rows_allow(alloc: Global, system: &System, step: &Frac) -> Result<bool, ColumnStop>
    requires { IsReady system.now.rows system.now.limits }
    ensures { IfOk result (λ shown. IsTrue shown → (i : ℕ) → i < system.now.rows.rows → RowAllows system.now.rows system.now.limits step.now i) }
{
    for i in 0..system.rows.rows() {
        let shown = row_allows(alloc, system, step, i)?;
        if !shown {
            return Ok(false);
        }
    }
    Ok(true)
}

/// Whether the slacks show that the width is at most 4^(r-1) times that of each whole form other than 0, r being the number of
/// coordinates.
pub(crate) fn is_below_forms(
    alloc: Global,
    system: &System,
    width: &Frac,
) -> Result<bool, ColumnStop>
    requires ready { IsReady system.now.rows system.now.limits }
    requires not_negative { whole (pos 0) ≤ℚ width.now }
    ensures { IfOk result (λ shown. IsTrue shown → IsBelowForms (polytope_of system.now.rows system.now.limits) width.now) }
{
    let count = sloping_rows(&system.rows);
    let step = step_of(system.rows.width(), count, width)?;
    let shown = rows_allow(alloc, system, &step)?;
    Ok(shown)
}
