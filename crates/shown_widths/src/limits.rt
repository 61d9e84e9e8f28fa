//! How far a line goes past the end of a form.
ghost use Rattle.std.specs.Prelude.{◌≡◌, ◌+◌, ◌*◌, neg_ℤ, Some, option_map, IfSome};
ghost use Rattle.farkas_rows.specs.Inequalities.{Inequality};
ghost use Rattle.farkas_rows.specs.Refutes.{Refutes};
ghost use Rattle.form_widths.specs.NodeLines.{end_number, margin, times_of};
ghost use Rattle.shown_widths.specs.Limits.{cut_limit, limit_at, limit_sum};

use exact_vectors::add_product;
use farkas_rows::{CutUse, Line, Path, Slice};
use frac128::Frac;
use whole_rows::DenseRows;

/// The numbers between which a form stays.
#[derive(Clone, Copy, Debug, Drop)]
struct Sides {
    low: Option<i128>,
    high: Option<i128>,
}

/// The sides in a place: those of the rows come first, then those of the columns and of the slices, and the end has the last
/// place.
fn sides_at(rows: &DenseRows, path: &[Slice], end: i128, place: usize) -> Sides
    ensures high { (inequality : Inequality) → inequality.limit ≡ end → limit_at rows.now path.now inequality (2 * place) ≡ result.high }
    ensures low { (inequality : Inequality) → inequality.limit ≡ end → limit_at rows.now path.now inequality (2 * place + 1) ≡ option_map neg_ℤ result.low }
{
    if place < rows.rows() {
        return Sides {
            low: rows.low(place),
            high: rows.high(place),
        };
    }
    let column = place - rows.rows();
    if column < rows.columns() {
        return Sides {
            low: Some(rows.box_low(column)),
            high: Some(rows.box_high(column)),
        };
    }
    let slice = column - rows.columns();
    if slice < path.len() {
        let side = Some(path[slice].beta);
        return Sides {
            low: side,
            high: side,
        };
    }
    if slice == path.len() {
        return Sides {
            low: None,
            high: Some(end),
        };
    }
    Sides {
        low: None,
        high: None,
    }
}

/// The limit of the inequality of this number, where there is one and it fits.
fn limit_at(rows: &DenseRows, path: &[Slice], end: i128, number: u32) -> Option<i128>
    ensures { (inequality : Inequality) → inequality.limit ≡ end → IfSome result (λ limit. limit_at rows.now path.now inequality number ≡ Some limit) }
{
    let sides = sides_at(rows, path, end, (number / 2) as usize);
    if number % 2 == 0 {
        sides.high
    } else {
        sides.low?.checked_neg()
    }
}

/// The limit of a cut as often as it is used, where it fits.
fn cut_limit(cut: &Option<CutUse>) -> Option<i128>
    ensures { IfSome result (λ limit. limit ≡ cut_limit cut.now) }
{
    match cut {
        Some(cut) => cut.times.checked_mul(cut.value.checked_sub(1)?),
        None => Some(0),
    }
}

/// What the limits that a line combines come to, where all numbers on the way fit.
fn limit_sum(rows: &DenseRows, path: &[Slice], end: i128, line: &Line) -> Option<i128>
    ensures { (inequality : Inequality) → inequality.limit ≡ end → IfSome result (λ sum. sum ≡ limit_sum rows.now path.now inequality line.now) }
{
    let mut sum = cut_limit(&line.cut)?;
    for item in line.items.items() {
        let limit = limit_at(rows, path, end, item.index)?;
        sum = add_product(sum, item.times, limit)?;
    }
    Some(sum)
}

/// The multiplier of the end in a line that refutes it; none where the line does not use it.
fn end_times(rows: &DenseRows, path: &Path, line: &Line) -> Option<i128>
    ensures { (inequality : Inequality) → Refutes rows.now path.now (Some inequality) line.now → IfSome result (λ times. times ≡ times_of (end_number rows.now path.now) line.now) }
{
    let (last, _) = line.items.items().split_last()?;
    let number = 2 * (rows.rows() + rows.columns() + path.items().len());
    if last.index as usize == number {
        Some(last.times)
    } else {
        None
    }
}

/// By how much a form is past an end with this limit, at each point of a node where the line refutes the end.
pub(crate) fn margin(rows: &DenseRows, path: &Path, end: i128, line: &Line) -> Option<Frac>
    ensures { (inequality : Inequality) → inequality.limit ≡ end → Refutes rows.now path.now (Some inequality) line.now → IfSome result (λ past. past ≡ margin rows.now path.now inequality line.now) }
{
    let shortfall = limit_sum(rows, path.items(), end, line)?.checked_neg()?;
    let times = end_times(rows, path, line)?;
    if times <= 0 {
        return None;
    }
    Frac::new(shortfall, times).ok()
}
