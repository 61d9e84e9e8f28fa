//! Products of matrices and vectors that answer whether they fit.
ghost use Rattle.std.specs.Prelude.{◌≡◌, ℕ, ◌<◌, ◌≤◌, ◌*◌, ◌^◌, ◌++◌, ◌+ℤ◌, pos, length, get_or, IfErr, IfOk, OnOk, SomeIff};
ghost use Rattle.exact_math.specs.Ring.{integers};
ghost use Rattle.exact_vectors.specs.Range.{StaysInRange};
ghost use Rattle.exact_vectors.specs.Vectors.{add, dot};
ghost use Rattle.exact_vectors.specs.Matrices.{column, combination, rows_of, times_matrix, times_vector};
ghost use Rattle.spaces.specs.Maps.{ProductStays};
ghost use Rattle.spaces.specs.Stops.{StopsUnless};
ghost use Rattle.spaces.specs.Tables.{row_at, rows_in};

use crate::grid::Grid;
use crate::map_stop::MapStop;
use crate::space::Space;
use exact_vectors::add_product;
use std::alloc::Global;

/// `base` plus the dot product of two slices of one length, taken in index order.
///
/// `None` comes exactly where a product or a partial sum leaves `i128`.
fn sum_from(base: i128, a: &[i128], x: &[i128]) -> Option<i128>
    requires { length a.now ≡ length x.now }
    ensures { SomeIff result (StaysInRange base a.now x.now) (base +ℤ dot integers a.now x.now) }
{
    let mut sum = base;
    for (p, q) in a.iter().zip(x) {
        sum = add_product(sum, *p, *q)?;
    }
    Some(sum)
}

/// The dot product with a column, taken in index order.
///
/// `None` comes exactly where a product or a partial sum leaves `i128`.
fn column_sum<S: Space>(factors: &[i128], lines: &Grid<S, i128>, place: usize) -> Option<i128>
    requires size { length factors.now ≡ lines.now.rows }
    requires place_there { place < lines.now.width }
    ensures { SomeIff result (StaysInRange (pos 0) factors.now (column integers (rows_in lines.now) place)) (dot integers factors.now (column integers (rows_in lines.now) place)) }
{
    let mut sum = 0;
    for k in 0..factors.len() {
        sum = add_product(sum, factors[k], lines.row(k)[place])?;
    }
    Some(sum)
}

/// The base plus the matrix times `x`, item by item.
pub(crate) fn image_items<S: Space>(
    alloc: Global,
    base: &[i128],
    lines: &Grid<S, i128>,
    x: &[i128],
) -> Result<Vec<i128>, MapStop>
    requires as_many { length base.now ≡ lines.now.rows }
    requires size { length x.now ≡ lines.now.width }
    ensures ok { IfOk result (λ items. items.items ≡ add integers base.now (times_vector integers (rows_in lines.now) x.now)) }
    ensures in_range { OnOk result ((i : ℕ) → i < length base.now → StaysInRange (get_or base.now i (pos 0)) (row_at lines.now i) x.now) }
    ensures stop { IfErr result (StopsUnless ((i : ℕ) → i < length base.now → StaysInRange (get_or base.now i (pos 0)) (row_at lines.now i) x.now)) }
{
    let mut items = Vec::with_capacity(alloc, base.len())?;
    for i in 0..base.len() {
        let Some(item) = sum_from(base[i], lines.row(i), x) else {
            return Err(MapStop::Wide);
        };
        items.push(item)?;
    }
    Ok(items)
}

/// Puts the items of a row vector times a matrix at the end of `items`.
pub(crate) fn append_product<S: Space>(
    items: &mut Vec<i128>,
    factors: &[i128],
    lines: &Grid<S, i128>,
) -> Result<(), MapStop>
    requires { length factors.now ≡ lines.now.rows }
    ensures ok { OnOk result (items.new.items ≡ items.old.items ++ combination integers lines.now.width factors.now (rows_in lines.now)) }
    ensures in_range { OnOk result (ProductStays factors.now lines.now) }
    ensures stop { IfErr result (StopsUnless (ProductStays factors.now lines.now)) }
{
    for j in 0..lines.width() {
        let Some(item) = column_sum(factors, lines, j) else {
            return Err(MapStop::Wide);
        };
        items.push(item)?;
    }
    Ok(())
}

/// The product of two matrices, row after row.
pub(crate) fn product_items<S: Space, T: Space>(
    alloc: Global,
    left: &Grid<T, i128>,
    right: &Grid<S, i128>,
) -> Result<Vec<i128>, MapStop>
    requires size { left.now.width ≡ right.now.rows }
    requires room { left.now.rows * right.now.width ≤ 2 ^ 31 }
    ensures ok { IfOk result (λ items. rows_of right.now.width left.now.rows items.items ≡ times_matrix integers right.now.width (rows_in left.now) (rows_in right.now)) }
    ensures size { IfOk result (λ items. length items.items ≡ left.now.rows * right.now.width) }
    ensures in_range { OnOk result ((i : ℕ) → i < left.now.rows → ProductStays (row_at left.now i) right.now) }
    ensures stop { IfErr result (StopsUnless ((i : ℕ) → i < left.now.rows → ProductStays (row_at left.now i) right.now)) }
{
    let mut items = Vec::with_capacity(alloc, left.rows() * right.width())?;
    for i in 0..left.rows() {
        append_product(&mut items, left.row(i), right)?;
    }
    Ok(items)
}
