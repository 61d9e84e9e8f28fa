//! Products that answer whether they fit.
ghost use Rattle.std.specs.Prelude.{◌≡◌, ◌*◌, ◌<◌, ◌≤◌, ◌^◌, length, IfErr, IfOk};
ghost use Rattle.exact_math.specs.Ring.{integers};
ghost use Rattle.exact_vectors.specs.Matrices.{column, times_matrix};
ghost use Rattle.spaces.specs.Multiples.{with_multiple, MultipleStays};
ghost use Rattle.spaces.specs.Stops.{StopsUnless};
ghost use Rattle.spaces.specs.Tables.{rows_in};
ghost use Rattle.reformulate.specs.Excuses.{MatricesStay};

use crate::matrices::copied;
use exact_vectors::add_product;
use spaces::{Affine, Grid, Kernel, MapStop, Vect, Work};
use std::alloc::Global;

/// The product of two matrices.
pub(crate) fn product(
    alloc: Global,
    left: Grid<Kernel, i128>,
    right: Grid<Work, i128>,
) -> Result<Grid<Work, i128>, MapStop>
    requires fits { left.width ≡ right.rows }
    requires room { left.rows * right.width ≤ 2 ^ 31 }
    ensures height { IfOk result (λ grid. grid.rows ≡ left.rows) }
    ensures width { IfOk result (λ grid. grid.width ≡ right.width) }
    ensures size { IfOk result (λ grid. length grid.items ≡ grid.rows * grid.width) }
    ensures rows { IfOk result (λ grid. rows_in grid ≡ times_matrix integers right.width (rows_in left) (rows_in right)) }
    ensures stop { IfErr result (StopsUnless (MatricesStay right.width (rows_in left) (rows_in right))) }
{
    let inner = vec![in alloc; 0i128; right.rows()]?;
    let outer = vec![in alloc; 0i128; left.rows()]?;
    let first = Affine::<Work, Kernel>::of(Vect::of(inner), right);
    let next = Affine::<Kernel, Kernel>::of(Vect::of(outer), left);
    let composed = first.compose(alloc, &next)?;
    let lines = copied(alloc, composed.lines())?;
    Ok(lines)
}

/// The point at `base` moved by `factor` times a column of the matrix.
pub(crate) fn moved_point(
    alloc: Global,
    base: &[i128],
    lines: &Grid<Kernel, i128>,
    place: usize,
    factor: i128,
) -> Result<Vec<i128>, MapStop>
    requires as_many { length base.now ≡ lines.now.rows }
    requires there { place < lines.now.width }
    ensures ok { IfOk result (λ point. point.items ≡ with_multiple factor (column integers (rows_in lines.now) place) base.now) }
    ensures stop { IfErr result (StopsUnless (MultipleStays factor (column integers (rows_in lines.now) place) base.now)) }
{
    let mut point = Vec::with_capacity(alloc, base.len())?;
    for i in 0..base.len() {
        let Some(item) = add_product(base[i], factor, lines.row(i)[place]) else {
            return Err(MapStop::Wide);
        };
        point.push(item)?;
    }
    Ok(point)
}
