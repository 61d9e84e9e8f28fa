//! Matrices made of the rows or the columns of another.
ghost use Rattle.std.specs.Prelude.{◌≡◌, ℕ, suc, ◌+◌, ◌*◌, ◌<◌, ◌≤◌, ◌^◌, List, length, map, IfOk};
ghost use Rattle.std.specs.List.{remove};
ghost use Rattle.exact_math.specs.Ring.{integers};
ghost use Rattle.exact_vectors.specs.Matrices.{column, transpose};
ghost use Rattle.spaces.specs.Tables.{row_at, rows_in};

use sequence::NoMemory;
use spaces::{Grid, Space};
use std::alloc::Global;

/// The same matrix again, in this or another space.
pub(crate) fn copied<S: Space, T: Space>(
    alloc: Global,
    grid: &Grid<S, i128>,
) -> Result<Grid<T, i128>, NoMemory>
    ensures height { IfOk result (λ copy. copy.rows ≡ grid.now.rows) }
    ensures width { IfOk result (λ copy. copy.width ≡ grid.now.width) }
    ensures size { IfOk result (λ copy. length copy.items ≡ copy.rows * copy.width) }
    ensures rows { IfOk result (λ copy. rows_in copy ≡ rows_in grid.now) }
{
    let mut copy = Grid::filled(alloc, grid.rows(), grid.width(), 0)?;
    for i in 0..grid.rows() {
        copy.row_mut(i).copy_from_slice(grid.row(i));
    }
    Ok(copy)
}

// Writes a column of the matrix over the items.
fn copy_column<S: Space>(items: &mut [i128], grid: &Grid<S, i128>, place: usize)
    requires there { place < grid.now.width }
    requires long { length items.old ≡ grid.now.rows }
    ensures { items.new ≡ column integers (rows_in grid.now) place }
{
    for k in 0..items.len() {
        items[k] = grid.row(k)[place];
    }
}

/// The transpose, a matrix of another space.
pub(crate) fn transposed<S: Space, T: Space>(
    alloc: Global,
    grid: &Grid<S, i128>,
) -> Result<Grid<T, i128>, NoMemory>
    ensures height { IfOk result (λ turned. turned.rows ≡ grid.now.width) }
    ensures width { IfOk result (λ turned. turned.width ≡ grid.now.rows) }
    ensures size { IfOk result (λ turned. length turned.items ≡ turned.rows * turned.width) }
    ensures rows { IfOk result (λ turned. rows_in turned ≡ transpose grid.now.width (rows_in grid.now)) }
{
    let mut turned = Grid::filled(alloc, grid.width(), grid.rows(), 0)?;
    for i in 0..grid.width() {
        copy_column(turned.row_mut(i), grid, i);
    }
    Ok(turned)
}

// The index of an item before one was left out.
fn index_before(index: usize, place: usize) -> usize
    requires { index < 2 ^ 63 }
    ensures below { index < place → result ≡ index }
    ensures above { place ≤ index → result ≡ index + 1 }
{
    if index < place { index } else { index + 1 }
}

// Writes all items of the row but one over the items.
fn copy_without(items: &mut [i128], row: &[i128], place: usize)
    requires there { place < length row.now }
    requires long { length items.old + 1 ≡ length row.now }
    ensures { items.new ≡ remove row.now place }
{
    for k in 0..items.len() {
        items[k] = row[index_before(k, place)];
    }
}

/// The matrix without a column.
pub(crate) fn without_column<S: Space>(
    alloc: Global,
    grid: &Grid<S, i128>,
    place: usize,
) -> Result<Grid<S, i128>, NoMemory>
    requires { place < grid.now.width }
    ensures height { IfOk result (λ rest. rest.rows ≡ grid.now.rows) }
    ensures width { IfOk result (λ rest. rest.width + 1 ≡ grid.now.width) }
    ensures size { IfOk result (λ rest. length rest.items ≡ rest.rows * rest.width) }
    ensures rows { IfOk result (λ rest. rows_in rest ≡ map (λ row. remove row place) (rows_in grid.now)) }
{
    let mut rest = Grid::filled(alloc, grid.rows(), grid.width() - 1, 0)?;
    for i in 0..grid.rows() {
        copy_without(rest.row_mut(i), grid.row(i), place);
    }
    Ok(rest)
}

/// The matrix without a row.
pub(crate) fn without_row<S: Space>(
    alloc: Global,
    grid: &Grid<S, i128>,
    place: usize,
) -> Result<Grid<S, i128>, NoMemory>
    requires there { place < grid.now.rows }
    requires few { grid.now.rows ≤ 256 }
    ensures height { IfOk result (λ rest. rest.rows + 1 ≡ grid.now.rows) }
    ensures width { IfOk result (λ rest. rest.width ≡ grid.now.width) }
    ensures size { IfOk result (λ rest. length rest.items ≡ rest.rows * rest.width) }
    ensures rows { IfOk result (λ rest. rows_in rest ≡ remove (rows_in grid.now) place) }
{
    let mut rest = Grid::filled(alloc, grid.rows() - 1, grid.width(), 0)?;
    for i in 0..grid.rows() - 1 {
        rest.row_mut(i)
            .copy_from_slice(grid.row(index_before(i, place)));
    }
    Ok(rest)
}
