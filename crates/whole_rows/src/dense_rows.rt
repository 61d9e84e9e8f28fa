//! Whole rows over a box, with a factor for each column.
ghost use Rattle.std.specs.Prelude.{◌≡◌, ◌^◌, ◌≤◌, ◌<◌, ◌↔◌, ℕ, pos, length, All, IfOk, OnOk, OnErr, IsErrOf, IsTrue};
ghost use Rattle.whole_rows.specs.WholeRows.{LiesIn, Meets, MeetsRow, cut_value, row_at, bounds_at, reach, span, weight, IsHeavy, IsFirstHeavy, IsWithinLimits, rows_over, with_row, with_cost};
ghost use Rattle.whole_rows.specs.declared.stops.BoxStop.TheVariants as box_stops;
ghost use Rattle.whole_rows.specs.declared.stops.RowStop.TheVariants as row_stops;

use crate::bounds::Bounds;
use crate::sides::Sides;
use crate::stops::{BoxStop, HeavyCost, RowStop};
use crate::sums::{dot_product, is_within, lies_in};
use crate::weights::{first_heavy, span_of, weight_of};
use std::alloc::Global;
use std::marker::Model;

/// Rows of whole numbers with a factor for each column, the bounds of the columns, and a cost for each column. The
/// factors lie row after row in one vector.
#[derive(Debug, Drop)]
pub struct DenseRows {
    bounds: Vec<Bounds>,
    factors: Vec<i128>,
    sides: Vec<Sides>,
    cost: Vec<i128>,
}

impl Model for DenseRows {
    ghost use Rattle.whole_rows.specs.WholeRows.{WholeRows};

    ghost Value = { WholeRows };

    ghost use Rattle.whole_rows.specs.FlatRows.{whole_rows, IsFlat};

    ghost view = { λ rows. whole_rows rows.bounds.items rows.factors.items rows.sides.items rows.cost.items };

    ghost invariant = { λ rows. IsFlat rows.bounds.items rows.factors.items rows.sides.items rows.cost.items };
}

impl DenseRows {
    /// No rows over a box with at most 256 columns, and a cost of 0 for each column.
    pub fn new(alloc: Global, bounds: Vec<Bounds>) -> Result<DenseRows, BoxStop>
        requires { length bounds.items ≤ 256 }
        ensures ok { IfOk result (λ rows. rows ≡ rows_over bounds.items) }
        ensures light { OnOk result (All (λ bounds. reach bounds ≤ 2 ^ 96) bounds.items) }
        ensures heavy { (j : ℕ) → IsErrOf result (box_stops.Heavy j) → IsFirstHeavy bounds.items j }
    {
        if let Some(j) = first_heavy(&bounds) {
            return Err(BoxStop::Heavy(j as u32));
        }
        let cost = vec![in alloc; 0; bounds.len()]?;
        Ok(DenseRows {
            bounds,
            factors: Vec::new(alloc),
            sides: Vec::new(alloc),
            cost,
        })
    }

    /// Puts a row at the end: its factors, one for each column, and its sides. Where it is refused the rows are as before.
    pub fn push_row(
        &mut self,
        factors: &[i128],
        low: Option<i128>,
        high: Option<i128>,
    ) -> Result<(), RowStop>
        requires dense { length factors.now ≡ length self.old.box }
        requires room { length self.old.rows < 256 }
        ensures ok { OnOk result (self.new ≡ with_row self.old (record { factors = factors.now; low = low; high = high })) }
        ensures light { OnOk result (weight self.old.box (record { factors = factors.now; low = low; high = high }) ≤ 2 ^ 96) }
        ensures heavy { IsErrOf result row_stops.Heavy → IsHeavy (weight self.old.box (record { factors = factors.now; low = low; high = high })) }
        ensures err { OnErr result (self.new ≡ self.old) }
    {
        let Some(weight) = weight_of(factors, low, high, &self.bounds) else {
            return Err(RowStop::Heavy);
        };
        self.sides.try_reserve(1)?;
        self.factors.extend_from_slice(factors)?;
        self.sides.push(Sides { low, high, weight }).unwrap();
        Ok(())
    }

    /// Puts other costs, one for each column, in place of those that stand, and answers the sum of each cost's size times
    /// the reach of its column. Where they are refused the rows are as before.
    pub fn set_cost(&mut self, cost: &[i128]) -> Result<u128, HeavyCost>
        requires { length cost.now ≡ length self.old.box }
        ensures ok { OnOk result (self.new ≡ with_cost self.old cost.now) }
        ensures sum { IfOk result (λ sum. sum ≡ span cost.now self.old.box) }
        ensures light { OnOk result (span cost.now self.old.box ≤ 2 ^ 96) }
        ensures heavy { OnErr result (IsHeavy (span cost.now self.old.box)) }
        ensures err { OnErr result (self.new ≡ self.old) }
    {
        let Some(sum) = span_of(cost, &self.bounds) else {
            return Err(HeavyCost);
        };
        self.cost.copy_from_slice(cost);
        Ok(sum)
    }

    /// How many columns there are.
    pub fn columns(&self) -> usize
        ensures count { result ≡ length self.now.box }
        ensures limits { IsWithinLimits self.now }
    {
        self.bounds.len()
    }

    /// How many rows there are.
    pub fn rows(&self) -> usize
        ensures count { result ≡ length self.now.rows }
        ensures limits { IsWithinLimits self.now }
    {
        self.sides.len()
    }

    /// Lends the bounds of the columns, in order.
    pub fn bounds(&self) -> &[Bounds]
        ensures value { result.now ≡ self.now.box }
        ensures limits { IsWithinLimits self.now }
    {
        &self.bounds
    }

    /// Lends the factors of row `i`, one for each column.
    pub fn row(&self, i: usize) -> &[i128]
        requires { i < length self.now.rows }
        ensures factors { result.now ≡ (row_at self.now i).factors }
        ensures dense { length result.now ≡ length self.now.box }
        ensures light { span result.now self.now.box ≤ 2 ^ 96 }
    {
        let width = self.bounds.len();
        &self.factors[i * width..i * width + width]
    }

    /// The lower side of row `i`.
    pub fn low(&self, i: usize) -> Option<i128>
        requires { i < length self.now.rows }
        ensures { result ≡ (row_at self.now i).low }
    {
        self.sides[i].low
    }

    /// The upper side of row `i`.
    pub fn high(&self, i: usize) -> Option<i128>
        requires { i < length self.now.rows }
        ensures { result ≡ (row_at self.now i).high }
    {
        self.sides[i].high
    }

    /// The weight of row `i`: the sum of each factor's size times the reach of its column, and the sizes of its sides.
    pub fn weight(&self, i: usize) -> i128
        requires { i < length self.now.rows }
        ensures value { result ≡ pos (weight self.now.box (row_at self.now i)) }
        ensures light { weight self.now.box (row_at self.now i) ≤ 2 ^ 96 }
    {
        self.sides[i].weight as i128
    }

    /// The least value of column `j`.
    pub fn box_low(&self, j: usize) -> i128
        requires { j < length self.now.box }
        ensures { result ≡ (bounds_at self.now j).low }
    {
        self.bounds[j].low
    }

    /// The greatest value of column `j`.
    pub fn box_high(&self, j: usize) -> i128
        requires { j < length self.now.box }
        ensures { result ≡ (bounds_at self.now j).high }
    {
        self.bounds[j].high
    }

    /// The reach of column `j`: the greatest of 1 and the sizes of its bounds.
    pub fn reach(&self, j: usize) -> i128
        requires { j < length self.now.box }
        ensures value { result ≡ pos (reach (bounds_at self.now j)) }
        ensures light { reach (bounds_at self.now j) ≤ 2 ^ 96 }
    {
        self.bounds[j].reach() as i128
    }

    /// Lends the costs, one for each column.
    pub fn cost(&self) -> &[i128]
        ensures value { result.now ≡ self.now.cost }
        ensures dense { length result.now ≡ length self.now.box }
        ensures light { span result.now self.now.box ≤ 2 ^ 96 }
    {
        &self.cost
    }

    /// Whether `x` is a point: a value for each column, within the box, that meets each row. It takes any
    /// slice, of any length.
    pub fn is_point(&self, x: &[i128]) -> bool
        ensures { IsTrue result ↔ Meets self.now x.now }
    {
        lies_in(&self.bounds, x) && self.meets_rows(x)
    }

    /// The sum of each cost times the value of its column at a point.
    pub fn cut_value(&self, x: &[i128]) -> i128
        requires { Meets self.now x.now }
        ensures { result ≡ cut_value self.now x.now }
    {
        dot_product(&self.cost, x)
    }

    /// Whether values within the box meet each row.
    fn meets_rows(&self, x: &[i128]) -> bool
        requires { LiesIn self.now.box x.now }
        ensures { IsTrue result ↔ All (λ row. MeetsRow row x.now) self.now.rows }
    {
        for i in 0..self.rows() {
            let value = dot_product(self.row(i), x);
            if !is_within(self.low(i), self.high(i), value) {
                return false;
            }
        }
        true
    }
}
