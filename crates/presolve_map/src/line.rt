//! Combinations of the inequalities of reduced rows, as combinations of those of the model.
ghost use Rattle.std.specs.Prelude.{◌≡◌, ◌≢◌, ◌≤◌, ◌^◌, ◌<◌, ◌+◌, ◌*◌, ℕ, pos, ◌++◌, ◌∷◌, [], length, nat_abs, List, All, None, Option, IfErr, IfOk, OnErr, OnOk, OkIff, slice_index, slice_index_or, IfSome, IsTrue, ◌↔◌, ◌⊎◌, ℤ};
ghost use Rattle.std.specs.List.Sorted.{IsStrictlyIncreasing};
ghost use Rattle.exact_math.specs.Rational.{whole, ◌+ℚ◌, ◌*ℚ◌, ◌<ℚ◌};
ghost use Rattle.spaces.specs.Stops.{StopsUnless};
ghost use Rattle.whole_rows.specs.WholeRows.{span};
ghost use Rattle.farkas_rows.specs.Inequalities.{Inequality};
ghost use Rattle.farkas_rows.specs.declared.path.Slice.{Slice};
ghost use Rattle.presolve_map.specs.LiftedLines.{numbers_of, upper_bound, lower_bound, bound_of, column_sum, cost_in, factor_in, ColumnStays, ComesToSame, IsLiftedLine, IsNodeOverKept, IsPutIn, IsRemoved, IsWith, IsWorkNumber, ItemStays, LineStays};

use farkas_rows::{FracUse, OriginalTimes};
use frac128::{Frac, Wide};
use sequence::NoMemory;
use spaces::MapStop;
use std::alloc::Global;
use whole_rows::{Bounds, DenseRows};

/// A combination of the inequalities of reduced rows: the multiplier of the cut, 0 where there is none, and multipliers above 0
/// under the numbers that the inequalities have in the model.
#[derive(Debug, Drop)]
pub struct WorkTimes {
    pub cut: Frac,
    pub items: OriginalTimes,
}

/// The same items and, for each removed column, the bound that takes its sum to 0, in the order of their numbers. The items are
/// those of a node whose slices are 0 in the removed columns.
///
/// The sum of a removed column takes the cut first and then the items in order. `Wide` comes exactly where a product or a sum on
/// that way leaves the range of `Frac`.
pub fn lift_line(
    alloc: Global,
    rows: &DenseRows,
    times: &WorkTimes,
) -> Result<OriginalTimes, MapStop>
    requires numbers { All (λ item. IsWorkNumber rows.now item.index) times.now.items }
    requires rising { IsStrictlyIncreasing (numbers_of times.now.items) }
    ensures line { IfOk result (IsLiftedLine rows.now times.now.cut times.now.items) }
    ensures positive { IfOk result (λ lifted. All (λ item. whole (pos 0) <ℚ item.times) times.now.items → All (λ item. whole (pos 0) <ℚ item.times) lifted) }
    ensures same { IfOk result (λ lifted. (path : List Slice) (end : Option Inequality) → IsNodeOverKept rows.now path end → ComesToSame rows.now path end times.now.cut times.now.items lifted) }
    ensures in_range { OnOk result (LineStays rows.now times.now.cut times.now.items) }
    ensures stop { IfErr result (StopsUnless (LineStays rows.now times.now.cut times.now.items)) }
{
    let mut lifted = times.items.items().to_vec(alloc)?;
    for column in 0..rows.columns() {
        if is_removed(rows, column) {
            let Ok(sum) = column_sum(rows, times, column) else {
                return Err(MapStop::Wide);
            };
            put_bound(&mut lifted, rows, column, &sum)?;
        }
    }
    Ok(OriginalTimes::from_vec(lifted))
}

/// Whether the bounds of a column are equal.
fn is_removed(rows: &DenseRows, column: usize) -> bool
    requires { column < length rows.now.box }
    ensures { IsTrue result ↔ IsRemoved rows.now column }
{
    rows.box_low(column) == rows.box_high(column)
}

/// What the cut and the items come to in a removed column.
fn column_sum(rows: &DenseRows, times: &WorkTimes, column: usize) -> Result<Frac, Wide>
    requires column { column < length rows.now.box }
    requires removed { IsRemoved rows.now column }
    requires numbers { All (λ item. IsWorkNumber rows.now item.index) times.now.items }
    ensures { OkIff result (ColumnStays rows.now times.now.cut times.now.items column) (column_sum rows.now times.now.cut times.now.items column) }
{
    let mut sum = times.cut.mul(&cost_of(rows, column))?;
    for item in times.items.items() {
        let factor = Frac::whole(factor_of(rows, item.index, column));
        sum = with_item(&sum, &item.times, &factor)?;
    }
    Ok(sum)
}

/// The cost of a column.
fn cost_of(rows: &DenseRows, column: usize) -> Frac
    requires { column < length rows.now.box }
    ensures { result ≡ cost_in rows.now column }
{
    Frac::whole(light_factor(rows.cost(), rows.bounds(), column))
}

/// One of the factors of a light form, which is small.
fn light_factor(factors: &[i128], bounds: &[Bounds], column: usize) -> i128
    requires same_length { length factors.now ≡ length bounds.now }
    requires column { column < length bounds.now }
    requires light { span factors.now bounds.now ≤ 2 ^ 96 }
    ensures value { result ≡ slice_index_or factors.now column (pos 0) }
    ensures small { nat_abs result ≤ 2 ^ 96 }
{
    factors[column]
}

/// The sum with a multiple of a factor.
#[tactic(auto, using(crate::proofs::LineLaws::nothing_added))]
fn with_item(sum: &Frac, times: &Frac, factor: &Frac) -> Result<Frac, Wide>
    ensures { OkIff result (ItemStays sum.now times.now factor.now) (sum.now +ℚ times.now *ℚ factor.now) }
{
    if factor.num() == 0 {
        return Ok(*sum);
    }
    let product = times.mul(factor)?;
    sum.add(&product)
}

/// The factor in a removed column of the inequality of a number: that of a row, turned for its lower side, and 0 past the rows.
fn factor_of(rows: &DenseRows, number: u32, column: usize) -> i128
    requires column { column < length rows.now.box }
    requires removed { IsRemoved rows.now column }
    requires number { IsWorkNumber rows.now number }
    ensures value { whole result ≡ factor_in rows.now [] None column number }
    ensures small { nat_abs result ≤ 2 ^ 96 }
{
    let at = (number / 2) as usize;
    if at >= rows.rows() {
        return 0;
    }
    let factor = light_factor(rows.row(at), rows.bounds(), column);
    if number % 2 == 1 { -factor } else { factor }
}

/// Puts in the bound of a column that takes its sum to 0, as often as it does; nothing where the sum is 0.
fn put_bound(
    items: &mut Vec<FracUse>,
    rows: &DenseRows,
    column: usize,
    sum: &Frac,
) -> Result<(), NoMemory>
    requires column { column < length rows.now.box }
    requires rising { IsStrictlyIncreasing (numbers_of items.old.items) }
    requires apart { All (λ other. (other.index ≢ upper_bound rows.now column) × (other.index ≢ lower_bound rows.now column)) items.old.items }
    ensures put { OnOk result (IsWith (bound_of rows.now column sum.now) items.old.items items.new.items) }
    ensures rising { OnOk result (IsStrictlyIncreasing (numbers_of items.new.items)) }
{
    match bound_of(rows, column, sum) {
        None => Ok(()),
        Some(item) => put(items, item),
    }
}

/// The bound of a column that takes this sum to 0, as often as it does; none where it is 0.
pub fn bound_of(rows: &DenseRows, column: usize, sum: &Frac) -> Option<FracUse>
    requires { column < length rows.now.box }
    ensures value { result ≡ bound_of rows.now column sum.now }
    ensures number { IfSome result (λ item. (item.index ≡ upper_bound rows.now column) ⊎ (item.index ≡ lower_bound rows.now column)) }
{
    let _columns = rows.columns();
    let upper = 2 * (rows.rows() + column) as u32;
    if sum.num() < 0 {
        return Some(FracUse {
            index: upper,
            times: sum.neg(),
        });
    }
    if sum.num() > 0 {
        return Some(FracUse {
            index: upper + 1,
            times: *sum,
        });
    }
    None
}

/// Puts an item in at its place. No other has its number.
fn put(items: &mut Vec<FracUse>, item: FracUse) -> Result<(), NoMemory>
    requires rising { IsStrictlyIncreasing (numbers_of items.old.items) }
    requires apart { All (λ other. other.index ≢ item.index) items.old.items }
    ensures put { OnOk result (IsPutIn item items.old.items items.new.items) }
    ensures rising { OnOk result (IsStrictlyIncreasing (numbers_of items.new.items)) }
{
    let place = place_of(items, item.index);
    items.insert(place, item)?;
    Ok(())
}

/// The place among items with rising numbers at which another number goes.
fn place_of(items: &[FracUse], number: u32) -> usize
    requires { All (λ other. other.index ≢ number) items.now }
    ensures within { result ≤ length items.now }
    ensures before { (k : ℕ) → k < result → slice_index (numbers_of items.now) k < number }
    ensures after { result < length items.now → number < slice_index (numbers_of items.now) result }
{
    for i in 0..items.len() {
        if items[i].index > number {
            return i;
        }
    }
    items.len()
}
