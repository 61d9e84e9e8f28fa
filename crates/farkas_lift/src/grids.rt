//! The forms of a node's inequalities and equalities as the rows of matrices.
ghost use Rattle.std.specs.Prelude.{◌≡◌, ◌*◌, ◌≤◌, ◌^◌, length, map, IfOk};
ghost use Rattle.std.specs.List.{All};
ghost use Rattle.farkas_lift.specs.NodeLifting.{side_forms};
ghost use Rattle.farkas_lift.specs.NodeSides.{IsThere};
ghost use Rattle.spaces.specs.Tables.{rows_in};

use crate::side::{NodeSide, side_factors};
use presolve_map::WorkRows;
use reformulate::Equality;
use sequence::NoMemory;
use spaces::{Grid, Work};
use std::alloc::Global;

/// The factors of sides, row after row.
pub(crate) fn side_grid(
    alloc: Global,
    rows: &WorkRows,
    sides: &[NodeSide],
) -> Result<Grid<Work, i128>, NoMemory>
    requires there { All (IsThere rows.now) sides.now }
    requires few { length sides.now ≤ 1025 }
    ensures height { IfOk result (λ grid. grid.rows ≡ length sides.now) }
    ensures width { IfOk result (λ grid. grid.width ≡ length rows.now.rows.box) }
    ensures size { IfOk result (λ grid. length grid.items ≡ grid.rows * grid.width) }
    ensures rows { IfOk result (λ grid. rows_in grid ≡ side_forms rows.now sides.now) }
{
    let mut grid = Grid::filled(alloc, sides.len(), rows.columns(), 0)?;
    for i in 0..sides.len() {
        let factors = side_factors(alloc, rows, sides[i])?;
        grid.row_mut(i).copy_from_slice(&factors);
    }
    Ok(grid)
}

/// The forms of equalities, row after row.
pub(crate) fn equality_grid(
    alloc: Global,
    equalities: &[Equality],
    columns: usize,
) -> Result<Grid<Work, i128>, NoMemory>
    requires dense { All (λ equality. length equality.form ≡ columns) equalities.now }
    requires room { length equalities.now * columns ≤ 2 ^ 31 }
    ensures height { IfOk result (λ grid. grid.rows ≡ length equalities.now) }
    ensures width { IfOk result (λ grid. grid.width ≡ columns) }
    ensures size { IfOk result (λ grid. length grid.items ≡ grid.rows * grid.width) }
    ensures rows { IfOk result (λ grid. rows_in grid ≡ map (λ equality. equality.form) equalities.now) }
{
    let mut grid = Grid::filled(alloc, equalities.len(), columns, 0)?;
    for i in 0..equalities.len() {
        grid.row_mut(i).copy_from_slice(equalities[i].form.items());
    }
    Ok(grid)
}
