//! Which numbers name an inequality.
ghost use Rattle.std.specs.Prelude.{◌≡◌, ◌↔◌, ◌<◌, ◌≤◌, ◌^◌, length, map, All, is_some, if◌then◌else◌, IsTrue, IsSome};
ghost use Rattle.std.specs.List.Sorted.{IsStrictlyIncreasing};
ghost use Rattle.whole_rows.specs.WholeRows.{row_at};
ghost use Rattle.farkas_rows.specs.Inequalities.{inequality_at};
ghost use Rattle.proof_text.specs.Reads.{some_path, some_end};

use farkas_rows::Use;
use whole_rows::DenseRows;

/// Whether a side of row `i` is there.
fn has_row_side(rows: &DenseRows, i: usize, is_lower: bool) -> bool
    requires { i < length rows.now.rows }
    ensures { result ≡ (if is_lower then is_some (row_at rows.now i).low else is_some (row_at rows.now i).high) }
{
    if is_lower {
        rows.low(i).is_some()
    } else {
        rows.high(i).is_some()
    }
}

/// Whether the number names an inequality of a node below so many splits, and of an end where there is one.
pub(crate) fn has_side(rows: &DenseRows, depth: usize, has_end: bool, number: u32) -> bool
    requires { depth < 2 ^ 32 }
    ensures { IsTrue result ↔ IsSome (inequality_at rows.now (some_path depth) (some_end has_end) number) }
{
    let number = number as usize;
    let place = number / 2;
    if place < rows.rows() {
        return has_row_side(rows, place, number % 2 == 1);
    }
    let last = 2 * (rows.rows() + rows.columns() + depth);
    if number < last {
        return true;
    }
    has_end && number == last
}

/// Whether each number names an inequality.
pub(crate) fn have_sides(rows: &DenseRows, depth: usize, has_end: bool, items: &[Use]) -> bool
    requires { depth < 2 ^ 32 }
    ensures { IsTrue result ↔ All (λ item. IsSome (inequality_at rows.now (some_path depth) (some_end has_end) item.index)) items.now }
{
    items
        .iter()
        .all(|item| has_side(rows, depth, has_end, item.index))
}

/// Whether the numbers rise.
pub(crate) fn do_rise(items: &[Use]) -> bool
    ensures { IsTrue result ↔ IsStrictlyIncreasing (map (λ item. item.index) items.now) }
{
    for i in 1..items.len() {
        if items[i - 1].index >= items[i].index {
            return false;
        }
    }
    true
}
