//! The integer rows of a model.
ghost use Rattle.std.specs.Prelude.{◌≡◌, ◌^◌, ◌≤◌, ◌<◌, ◌↔◌, ℤ, pos, ◌≤ℤ◌, List, length, map, All, IfOk, OnOk, IsErrOf, IsTrue};
ghost use Rattle.exact_math.specs.Rational.{◌≤ℚ◌};
ghost use Rattle.int_model.specs.declared.part.Part.{Part};
ghost use Rattle.int_model.specs.declared.part.RowsStop.TheVariants as stops;
ghost use Rattle.int_model.specs.Points.{IsPoint, value_at, IsBest};
ghost use Rattle.whole_rows.specs.WholeRows.{Meets, HasLeastCutValue, cut_value, row_at, bounds_at, reach, span, weight, IsWithinLimits};
ghost use Rattle.int_model.specs.IntegerRows.{value_in, integer_rows, IsDistinctBelow, rounded_bounds};
ghost use Rattle.int_model.specs.Large.{IsFirstLarge, HasNoLargePart};

use crate::integer_row::push_integer_row;
use crate::model::{Column, Model as Program};
use crate::objective::{ValueTerms, set_objective};
use crate::part::{Part, RowsStop};
use frac128::Frac;
use sequence::NoMemory;
use std::alloc::Global;
use std::marker::Model;
use whole_rows::{Bounds, DenseRows};

/// The whole rows of a model: a factor for each column, the bounds of the columns, and a cost for each column; and what
/// makes a value of a sum of costs.
#[derive(Debug, Drop)]
pub struct IntRows {
    whole: DenseRows,
    terms: ValueTerms,
}

impl Model for IntRows {
    ghost use Rattle.int_model.specs.IntegerRows.{IntegerRows};

    ghost Value = { IntegerRows };

    ghost use Rattle.int_model.specs.ObjectiveValues.{with_values, IsLightValue};

    ghost view = { λ rows. with_values rows.whole rows.terms };

    ghost invariant = { λ rows. IsLightValue rows.whole.box rows.whole.cost rows.terms };
}

impl IntRows {
    /// The integer rows of a model with at most 256 rows and 256 columns, whose items are in rising order of column.
    /// Where a part is large the answer is the first such part: columns in order, then rows in order, then the objective.
    pub fn of(alloc: Global, model: &Program) -> Result<IntRows, RowsStop>
        requires few_columns { length model.now.columns ≤ 256 }
        requires few_rows { length model.now.rows ≤ 256 }
        requires items { All (λ row. IsDistinctBelow (length model.now.columns) row.items) model.now.rows }
        requires objective { IsDistinctBelow (length model.now.columns) model.now.objective }
        ensures rows { IfOk result (λ rows. rows ≡ integer_rows model.now) }
        ensures small { OnOk result (HasNoLargePart model.now) }
        ensures large { (part : Part) → IsErrOf result (stops.Large part) → IsFirstLarge model.now part }
        ensures points { IfOk result (λ rows. (x : List ℤ) → IsPoint model.now x ↔ Meets rows.whole x) }
        ensures values { IfOk result (λ rows. (x : List ℤ) → IsPoint model.now x → value_at model.now x ≡ value_in rows x) }
        ensures order { IfOk result (λ rows. (x y : List ℤ) → IsPoint model.now x → IsPoint model.now y → (value_at model.now x ≤ℚ value_at model.now y) ↔ (cut_value rows.whole x ≤ℤ cut_value rows.whole y)) }
        ensures best { IfOk result (λ rows. (x : List ℤ) → IsBest model.now x ↔ HasLeastCutValue rows.whole x) }
    {
        let mut whole = DenseRows::new(alloc, box_of(alloc, model.columns.items())?)?;
        let mut factors = Vec::new(alloc);
        let rows = model.rows.items();
        for i in 0..rows.len() {
            if let Err(stop) = push_integer_row(&mut whole, &mut factors, &rows[i]) {
                return Err(stop.at(Part::Row(i as u32)));
            }
        }
        match set_objective(&mut whole, &mut factors, model) {
            Ok(terms) => Ok(IntRows { whole, terms }),
            Err(stop) => Err(stop.at(Part::Objective)),
        }
    }

    /// Lends the rows without the value.
    pub fn whole(&self) -> &DenseRows
        ensures { result.now ≡ self.now.whole }
    {
        &self.whole
    }

    /// How many columns there are.
    pub fn columns(&self) -> usize
        ensures count { result ≡ length self.now.whole.box }
        ensures limits { IsWithinLimits self.now.whole }
    {
        self.whole.columns()
    }

    /// How many rows there are.
    pub fn rows(&self) -> usize
        ensures count { result ≡ length self.now.whole.rows }
        ensures limits { IsWithinLimits self.now.whole }
    {
        self.whole.rows()
    }

    /// Lends the factors of row `i`, one for each column.
    pub fn row(&self, i: usize) -> &[i128]
        requires { i < length self.now.whole.rows }
        ensures factors { result.now ≡ (row_at self.now.whole i).factors }
        ensures dense { length result.now ≡ length self.now.whole.box }
        ensures light { span result.now self.now.whole.box ≤ 2 ^ 96 }
    {
        self.whole.row(i)
    }

    /// The lower side of row `i`.
    pub fn low(&self, i: usize) -> Option<i128>
        requires { i < length self.now.whole.rows }
        ensures { result ≡ (row_at self.now.whole i).low }
    {
        self.whole.low(i)
    }

    /// The upper side of row `i`.
    pub fn high(&self, i: usize) -> Option<i128>
        requires { i < length self.now.whole.rows }
        ensures { result ≡ (row_at self.now.whole i).high }
    {
        self.whole.high(i)
    }

    /// The weight of row `i`: the sum of each factor's size times the reach of its column, and the sizes of its sides.
    pub fn weight(&self, i: usize) -> i128
        requires { i < length self.now.whole.rows }
        ensures value { result ≡ pos (weight self.now.whole.box (row_at self.now.whole i)) }
        ensures light { weight self.now.whole.box (row_at self.now.whole i) ≤ 2 ^ 96 }
    {
        self.whole.weight(i)
    }

    /// The least value of column `j`.
    pub fn box_low(&self, j: usize) -> i128
        requires { j < length self.now.whole.box }
        ensures { result ≡ (bounds_at self.now.whole j).low }
    {
        self.whole.box_low(j)
    }

    /// The greatest value of column `j`.
    pub fn box_high(&self, j: usize) -> i128
        requires { j < length self.now.whole.box }
        ensures { result ≡ (bounds_at self.now.whole j).high }
    {
        self.whole.box_high(j)
    }

    /// The reach of column `j`: the greatest of 1 and the sizes of its bounds.
    pub fn reach(&self, j: usize) -> i128
        requires { j < length self.now.whole.box }
        ensures value { result ≡ pos (reach (bounds_at self.now.whole j)) }
        ensures light { reach (bounds_at self.now.whole j) ≤ 2 ^ 96 }
    {
        self.whole.reach(j)
    }

    /// Lends the costs, one for each column: the objective's factors times a positive number.
    pub fn cost(&self) -> &[i128]
        ensures value { result.now ≡ self.now.whole.cost }
        ensures dense { length result.now ≡ length self.now.whole.box }
        ensures light { span result.now self.now.whole.box ≤ 2 ^ 96 }
    {
        self.whole.cost()
    }

    /// Whether `x` is a point: a value for each column, within the box, that meets each row. It takes any
    /// slice, of any length.
    pub fn is_point(&self, x: &[i128]) -> bool
        ensures { IsTrue result ↔ Meets self.now.whole x.now }
    {
        self.whole.is_point(x)
    }

    /// The objective's value at a point.
    pub fn value(&self, x: &[i128]) -> Frac
        requires { Meets self.now.whole x.now }
        ensures { result ≡ value_in self.now x.now }
    {
        let sum = self.terms.constant + self.terms.factor * self.cut_value(x);
        Frac::new(sum, self.terms.divisor).unwrap()
    }

    /// The sum of each cost times the value of its column at a point.
    pub fn cut_value(&self, x: &[i128]) -> i128
        requires { Meets self.now.whole x.now }
        ensures { result ≡ cut_value self.now.whole x.now }
    {
        self.whole.cut_value(x)
    }
}

/// The rounded bounds of the columns, in order.
fn box_of(alloc: Global, columns: &[Column]) -> Result<Vec<Bounds>, NoMemory>
    ensures { IfOk result (λ bounds. bounds.items ≡ map rounded_bounds columns.now) }
{
    let mut rounded = Vec::new(alloc);
    for column in columns {
        rounded.push(Bounds {
            low: column.lo.ceil(),
            high: column.hi.floor(),
        })?;
    }
    Ok(rounded)
}
