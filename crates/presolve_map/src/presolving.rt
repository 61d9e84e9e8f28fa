//! What is left of whole rows, or why they have no point.
ghost use Rattle.std.specs.Prelude.{IfOk};
ghost use Rattle.presolve_map.specs.Presolved.{IsPresolved};
ghost use Rattle.presolve_map.specs.Roots.{IsClosedRoot};

use crate::columns::{open_flags, removed_bounds};
use crate::outcome::Presolved;
use crate::placing::column_map;
use crate::reduce::work_rows;
use crate::root::close_root;
use sequence::NoMemory;
use std::alloc::Global;
use whole_rows::DenseRows;

/// Takes out the columns whose bounds are equal, and the rows that the box cannot violate.
///
/// The root is closed exactly where bounds of a column cross, or no values within the box meet some side of a row, or the sides
/// of a row cross. Else the points of the rows that are left go one to one onto those of the rows. It takes memory for what it
/// answers, and for a flag and bounds for each column. (Andersen and Andersen, Presolving in linear programming, 1995.)
pub fn presolve(alloc: Global, rows: &DenseRows) -> Result<Presolved, NoMemory>
    ensures { IfOk result (IsPresolved rows.now) }
{
    match close_root(alloc, rows)? {
        Some(line) => Ok(Presolved::Closed(line)),
        None => open_root(alloc, rows),
    }
}

/// What is left of a root that is not closed.
fn open_root(alloc: Global, rows: &DenseRows) -> Result<Presolved, NoMemory>
    requires { IsClosedRoot rows.now → ⊥ }
    ensures { IfOk result (IsPresolved rows.now) }
{
    let _columns = rows.columns();
    let bounds = rows.bounds();
    let flags = open_flags(alloc, bounds)?;
    let removed = removed_bounds(alloc, bounds)?;
    let work = work_rows(alloc, rows, &flags, &removed)?;
    let map = column_map(alloc, bounds, &flags, &removed, work.columns())?;
    Ok(Presolved::Open { map, rows: work })
}
