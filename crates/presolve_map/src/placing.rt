//! The map from the values of the columns that are kept to those of all columns.
ghost use Rattle.std.specs.Prelude.{◌≡◌, ◌^◌, ◌≤◌, pos, length, IfOk};
ghost use Rattle.whole_rows.specs.Ends.{lows};
ghost use Rattle.spaces.specs.Tables.{filled, rows_in};
ghost use Rattle.presolve_map.specs.Selections.{positions};
ghost use Rattle.presolve_map.specs.Columns.{open_flags, kept_columns, column_lines, IsColumnMap};
ghost use Rattle.presolve_map.specs.Removed.{removed_bounds};
ghost use Rattle.presolve_map.specs.Placed.{IsPlaced};

use sequence::NoMemory;
use spaces::{Affine, Grid, Original, Vect, Work};
use std::alloc::Global;
use whole_rows::Bounds;

/// The map that gives each of the `width` columns that are kept its value, and each other one its only value.
pub(crate) fn column_map(
    alloc: Global,
    bounds: &[Bounds],
    flags: &[bool],
    removed: &[Bounds],
    width: usize,
) -> Result<Affine<Work, Original>, NoMemory>
    requires few { length bounds.now ≤ 256 }
    requires flags { flags.now ≡ open_flags bounds.now }
    requires removed { removed.now ≡ removed_bounds bounds.now }
    requires width { width ≡ length (kept_columns bounds.now) }
    requires narrow { width ≤ 256 }
    ensures { IfOk result (IsColumnMap bounds.now) }
{
    let base = lows_of(alloc, removed)?;
    let mut lines = Grid::<Work, i128>::filled(alloc, flags.len(), width, 0)?;
    place_columns(&mut lines, flags);
    Ok(Affine::of(Vect::of(base), lines))
}

/// The least values of the columns.
fn lows_of(alloc: Global, bounds: &[Bounds]) -> Result<Vec<i128>, NoMemory>
    ensures { IfOk result (λ values. values.items ≡ lows bounds.now) }
{
    let values = bounds.iter().map(|b| b.low).collect(alloc)?;
    Ok(values)
}

/// Puts a 1 in the line of each column that is kept, at its place among them.
fn place_columns(lines: &mut Grid<Work, i128>, flags: &[bool])
    requires { lines.old ≡ filled (length flags.now) (length (positions 0 flags.now)) (pos 0) }
    ensures { IsPlaced flags.now lines.new }
{
    let mut place = 0;
    for i in 0..flags.len() {
        if flags[i] {
            lines.row_mut(i)[place] = 1;
            place += 1;
        }
    }
}
