//! Whether a root is closed by its box and single rows, and the line that closes it.
ghost use Rattle.std.specs.Prelude.{◌≡◌, ◌↔◌, ℕ, ◌<◌, ◌≤◌, [], length, All, None, IfOk, IfSome, IfNone, IsTrue};
ghost use Rattle.whole_rows.specs.WholeRows.{row_at};
ghost use Rattle.farkas_rows.specs.Refutes.{Refutes};
ghost use Rattle.plain_slices.specs.Shut.{Shut};
ghost use Rattle.presolve_map.specs.Roots.{HaveCrossed, HasCrossingSides, IsClosedRoot, IsRootLine, IsShutAnswer, IsRootAnswer};

use farkas_rows::{Line, Path, Use, Uses};
use plain_slices::plain_move;
use proof_tree::Move;
use sequence::NoMemory;
use std::alloc::Global;
use whole_rows::DenseRows;

/// The line that refutes a closed root; none where the root is not closed.
pub(crate) fn close_root(alloc: Global, rows: &DenseRows) -> Result<Option<Line>, NoMemory>
    ensures { IfOk result (IsRootAnswer rows.now) }
{
    match shut_line(alloc, rows)? {
        Some(line) => Ok(Some(line)),
        None => crossing_line(alloc, rows),
    }
}

/// The line of the first row whose sides cross, where bounds do not cross and each side can be met; none where there is no such
/// row.
fn crossing_line(alloc: Global, rows: &DenseRows) -> Result<Option<Line>, NoMemory>
    requires { Shut rows.now [] None → ⊥ }
    ensures { IfOk result (IsRootAnswer rows.now) }
{
    match crossing_row(rows) {
        Some(i) => {
            let line = line_of_sides(alloc, rows, i)?;
            Ok(Some(line))
        }
        None => Ok(None),
    }
}

/// The line of bounds that cross, or of a side of a row that no values within the box meet; none where there is neither.
fn shut_line(alloc: Global, rows: &DenseRows) -> Result<Option<Line>, NoMemory>
    ensures { IfOk result (IsShutAnswer rows.now) }
{
    let path = Path::new(alloc);
    match plain_move(alloc, rows, &path, None)? {
        Move::Close(line) => Ok(Some(line)),
        Move::Split(_) => Ok(None),
        Move::Point(_) => Ok(None),
    }
}

/// The first row whose sides cross.
fn crossing_row(rows: &DenseRows) -> Option<usize>
    ensures within { IfSome result (λ i. i < length rows.now.rows) }
    ensures crosses { IfSome result (λ i. HasCrossingSides (row_at rows.now i)) }
    ensures none { IfNone result ((i : ℕ) → i < length rows.now.rows → HasCrossingSides (row_at rows.now i) → ⊥) }
{
    for i in 0..rows.rows() {
        if have_crossed(rows.low(i), rows.high(i)) {
            return Some(i);
        }
    }
    None
}

/// Whether the upper side is below the lower one.
fn have_crossed(low: Option<i128>, high: Option<i128>) -> bool
    ensures { IsTrue result ↔ HaveCrossed low high }
{
    match low {
        None => false,
        Some(low) => match high {
            None => false,
            Some(high) => high < low,
        },
    }
}

/// The line of the two sides of row `i`, once each.
fn line_of_sides(alloc: Global, rows: &DenseRows, i: usize) -> Result<Line, NoMemory>
    requires within { i < length rows.now.rows }
    requires crosses { HasCrossingSides (row_at rows.now i) }
    ensures { IfOk result (IsRootLine rows.now) }
{
    let _count = rows.rows();
    let number = 2 * i as u32;
    let items = vec![in alloc;
        Use {
            index: number,
            times: 1
        },
        Use {
            index: number + 1,
            times: 1
        },
    ]?;
    Ok(Line {
        cut: None,
        items: Uses::from_vec(items),
    })
}
