//! Copies of a matrix.
ghost use Rattle.std.specs.Prelude.{◌≡◌, ℕ, ◌+◌, ◌*◌, ◌^◌, ◌<◌, ◌≤◌, [], length, get_or, IfOk};
ghost use Rattle.lattice_reduce.specs.Beside.{with_last};
ghost use Rattle.spaces.specs.Tables.{rows_in};

use sequence::NoMemory;
use spaces::{Grid, Space, Vect};
use std::alloc::Global;

// Copies the rows into the first rows of another matrix.
fn copy_rows<S: Space>(from: &Grid<S, i128>, into: &mut Grid<S, i128>)
    requires room { from.now.rows ≤ into.old.rows }
    requires same_width { into.old.width ≡ from.now.width }
    ensures height { into.new.rows ≡ into.old.rows }
    ensures width { into.new.width ≡ into.old.width }
    ensures size { length into.new.items ≡ into.new.rows * into.new.width }
    ensures rows { (j : ℕ) → j < from.now.rows → get_or (rows_in into.new) j [] ≡ get_or (rows_in from.now) j [] }
{
    let _size = into.width();
    for i in 0..from.rows() {
        into.row_mut(i).copy_from_slice(from.row(i));
    }
}

/// A copy of the matrix.
pub(crate) fn copied<S: Space>(
    alloc: Global,
    basis: &Grid<S, i128>,
) -> Result<Grid<S, i128>, NoMemory>
    ensures height { IfOk result (λ copy. copy.rows ≡ basis.now.rows) }
    ensures width { IfOk result (λ copy. copy.width ≡ basis.now.width) }
    ensures rows { IfOk result (λ copy. rows_in copy ≡ rows_in basis.now) }
{
    let mut copy = Grid::filled(alloc, basis.rows(), basis.width(), 0)?;
    copy_rows(basis, &mut copy);
    Ok(copy)
}

/// A copy of the matrix with one more row behind the last.
pub(crate) fn copied_with<S: Space>(
    alloc: Global,
    basis: &Grid<S, i128>,
    last: &Vect<S>,
) -> Result<Grid<S, i128>, NoMemory>
    requires room { (basis.now.rows + 1) * basis.now.width ≤ 2 ^ 31 }
    requires few { basis.now.rows ≤ 256 }
    requires width { length last.now ≡ basis.now.width }
    ensures height { IfOk result (λ copy. copy.rows ≡ basis.now.rows + 1) }
    ensures width { IfOk result (λ copy. copy.width ≡ basis.now.width) }
    ensures rows { IfOk result (λ copy. rows_in copy ≡ with_last (rows_in basis.now) last.now) }
{
    let count = basis.rows();
    let mut copy = Grid::filled(alloc, count + 1, basis.width(), 0)?;
    copy_rows(basis, &mut copy);
    copy.row_mut(count).copy_from_slice(last.items());
    Ok(copy)
}
