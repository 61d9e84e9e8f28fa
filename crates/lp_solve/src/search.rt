//! The search for the next pivot by Bland's rule.
ghost use Rattle.std.specs.Prelude.{◌≡◌, ◌<◌, ◌≤◌, ◌⊎◌, length, get_or, ◌↔◌, IsTrue, MatchOption, MatchResult, ⊤};
ghost use Rattle.frac128.specs.Range.{InRange};
ghost use Rattle.lp_solve.specs.Rule.{HasEntry, IsFree, IsBelow, Raises, Lowers, Limits, IsSoonest, time_at, basic_at, outside_at};
ghost use Rattle.lp_solve.specs.Steps.{FindsFirst, FindsSoonest, Sooner, StepIs};

use crate::signs::{has_entry, is_below, limits, lowers, raises};
use frac128::Frac;
use lp_dict::Dict;
use std::cmp::Ordering;

/// What is next.
#[derive(Clone, Copy, Debug, Drop)]
pub(crate) enum Step {
    /// A pivot at this row and column.
    Pivot { row: usize, column: usize },
    /// A pivot in this column, of which the quotient of this row leaves the range.
    WideQuotient { row: usize, column: usize },
    /// The slack of this row is below 0 at each point.
    NoPoint { row: usize },
    /// The form is least.
    Least,
}

// The one of two rows whose variable is first.
fn first_row(dict: &Dict, best: Option<usize>, row: usize) -> usize
    requires row_there { row < length dict.now.basic }
    requires best_there { MatchOption best ⊤ (λ k. k < length dict.now.basic) }
    ensures { MatchOption best (result ≡ row) (λ k. ((result ≡ k) × (basic_at dict.now k ≤ basic_at dict.now row)) ⊎ ((result ≡ row) × (basic_at dict.now row ≤ basic_at dict.now k))) }
{
    match best {
        Some(k) => {
            if dict.basic(k) <= dict.basic(row) {
                k
            } else {
                row
            }
        }
        None => row,
    }
}

// The one of two columns whose variable is first.
fn first_column(dict: &Dict, best: Option<usize>, column: usize) -> usize
    requires column_there { column < length dict.now.outside }
    requires best_there { MatchOption best ⊤ (λ k. k < length dict.now.outside) }
    ensures { MatchOption best (result ≡ column) (λ k. ((result ≡ k) × (outside_at dict.now k ≤ outside_at dict.now column)) ⊎ ((result ≡ column) × (outside_at dict.now column ≤ outside_at dict.now k))) }
{
    match best {
        Some(k) => {
            if dict.outside(k) <= dict.outside(column) {
                k
            } else {
                column
            }
        }
        None => column,
    }
}

// The first slack's row that has an entry other than 0 in the column.
fn first_entry(dict: &Dict, rows: usize, columns: usize, column: usize) -> Option<usize>
    requires rows { rows ≡ length dict.now.basic }
    requires columns { columns ≡ length dict.now.outside }
    requires column_there { column < length dict.now.outside }
    ensures { FindsFirst dict.now.basic (HasEntry dict.now column) result }
{
    let mut best = None;
    for i in 0..rows {
        if has_entry(dict, columns, i, column) {
            best = Some(first_row(dict, best, i));
        }
    }
    best
}

// The first slack below 0.
fn first_below(dict: &Dict, rows: usize, columns: usize) -> Option<usize>
    requires rows { rows ≡ length dict.now.basic }
    requires columns { columns ≡ length dict.now.outside }
    ensures { FindsFirst dict.now.basic (IsBelow dict.now) result }
{
    let mut best = None;
    for i in 0..rows {
        if is_below(dict, columns, i) {
            best = Some(first_row(dict, best, i));
        }
    }
    best
}

// The first slack outside that raises the variable of the row.
fn first_raising(dict: &Dict, columns: usize, row: usize) -> Option<usize>
    requires columns { columns ≡ length dict.now.outside }
    requires row_there { row < length dict.now.basic }
    ensures { FindsFirst dict.now.outside (Raises dict.now row) result }
{
    let mut best = None;
    for j in 0..columns {
        if raises(dict, columns, row, j) {
            best = Some(first_column(dict, best, j));
        }
    }
    best
}

// The first slack outside that lowers the form.
fn first_lowering(dict: &Dict, rows: usize, columns: usize) -> Option<usize>
    requires rows { rows ≡ length dict.now.basic }
    requires columns { columns ≡ length dict.now.outside }
    ensures { FindsFirst dict.now.outside (Lowers dict.now) result }
{
    let mut best = None;
    for j in 0..columns {
        if lowers(dict, rows, columns, j) {
            best = Some(first_column(dict, best, j));
        }
    }
    best
}

// Whether the column is a coordinate's and a slack's row has an entry other than 0 in it.
fn is_free(dict: &Dict, rows: usize, columns: usize, column: usize) -> bool
    requires rows { rows ≡ length dict.now.basic }
    requires columns { columns ≡ length dict.now.outside }
    requires column_there { column < length dict.now.outside }
    ensures { IsTrue result ↔ IsFree dict.now column }
{
    if dict.outside(column) as usize >= columns {
        return false;
    }
    match first_entry(dict, rows, columns, column) {
        Some(_) => true,
        None => false,
    }
}

// The first coordinate outside that is free.
fn first_free(dict: &Dict, rows: usize, columns: usize) -> Option<usize>
    requires rows { rows ≡ length dict.now.basic }
    requires columns { columns ≡ length dict.now.outside }
    ensures { FindsFirst dict.now.outside (IsFree dict.now) result }
{
    let mut best = None;
    for j in 0..columns {
        if is_free(dict, rows, columns, j) {
            best = Some(first_column(dict, best, j));
        }
    }
    best
}

// How far the column can grow until the row is at 0; the row itself where that is out of range.
fn time(dict: &Dict, columns: usize, row: usize, column: usize) -> Result<Frac, usize>
    requires columns { columns ≡ length dict.now.outside }
    requires row_there { row < length dict.now.basic }
    requires column_there { column < length dict.now.outside }
    requires limits { Limits dict.now column row }
    ensures { MatchResult result (λ t. t ≡ time_at dict.now column row) (λ i. (i ≡ row) × ¬ (InRange (time_at dict.now column row))) }
{
    let constant = dict.entry(row, columns);
    let fall = dict.entry(row, column).neg();
    match constant.div(&fall) {
        Ok(quotient) => Ok(quotient),
        Err(_) => Err(row),
    }
}

// A row and how far the column can grow until it is at 0.
#[derive(Clone, Copy, Debug, Drop)]
struct Limit {
    row: usize,
    time: Frac,
}

// The one of two rows that is at 0 sooner, and of equal ones that whose variable is first.
#[tactic(auto, using(exact_math::specs::RationalTests::rational_tests))]
fn sooner(dict: &Dict, best: Option<Limit>, row: usize, time: Frac) -> Limit
    requires row_there { row < length dict.now.basic }
    requires best_there { MatchOption best ⊤ (λ b. b.row < length dict.now.basic) }
    ensures { Sooner dict.now best row time result }
{
    let new = Limit { row, time };
    let Some(old) = best else {
        return new;
    };
    match old.time.cmp(&time) {
        Ordering::Less => old,
        Ordering::Greater => new,
        Ordering::Equal => {
            if dict.basic(old.row) <= dict.basic(row) {
                old
            } else {
                new
            }
        }
    }
}

// The first of the slacks that reach 0 soonest by the growth of the column; a row whose quotient is out of range.
fn soonest(dict: &Dict, rows: usize, columns: usize, column: usize) -> Result<Option<usize>, usize>
    requires rows { rows ≡ length dict.now.basic }
    requires columns { columns ≡ length dict.now.outside }
    requires column_there { column < length dict.now.outside }
    ensures { MatchResult result (λ found. FindsSoonest dict.now column found) (λ i. (i < length dict.now.basic) × Limits dict.now column i × ¬ (InRange (time_at dict.now column i))) }
{
    let mut best: Option<Limit> = None;
    for i in 0..rows {
        if limits(dict, columns, i, column) {
            let growth = time(dict, columns, i, column)?;
            best = Some(sooner(dict, best, i, growth));
        }
    }
    match best {
        Some(limit) => Ok(Some(limit.row)),
        None => Ok(None),
    }
}

/// What is next, by Bland's rule.
pub(crate) fn next_step(dict: &Dict, rows: usize, columns: usize) -> Step
    requires rows { rows ≡ length dict.now.basic }
    requires columns { columns ≡ length dict.now.outside }
    ensures { StepIs dict.now result }
{
    if let Some(column) = first_free(dict, rows, columns) {
        return match first_entry(dict, rows, columns, column) {
            Some(row) => Step::Pivot { row, column },
            None => Step::Least,
        };
    }
    if let Some(row) = first_below(dict, rows, columns) {
        return match first_raising(dict, columns, row) {
            Some(column) => Step::Pivot { row, column },
            None => Step::NoPoint { row },
        };
    }
    let Some(column) = first_lowering(dict, rows, columns) else {
        return Step::Least;
    };
    match soonest(dict, rows, columns, column) {
        Ok(Some(row)) => Step::Pivot { row, column },
        Ok(None) => Step::Least,
        Err(row) => Step::WideQuotient { row, column },
    }
}
