//! The rows that presolving leaves.
ghost use Rattle.std.specs.Prelude.{◌≡◌, ◌^◌, ◌≤◌, ◌<◌, ◌++◌, ◌∷◌, [], length, slice_index, All, IfOk, OnOk};
ghost use Rattle.whole_rows.specs.WholeRows.{row_at, bounds_at, reach, span, size_of_side, rows_over, with_cost};
ghost use Rattle.presolve_map.specs.WorkViews.{with_work_row};

use crate::sides::WorkSides;
use sequence::NoMemory;
use std::alloc::Global;
use std::marker::Model;
use whole_rows::{Bounds, BoxStop, DenseRows, RowStop};

/// Rows over those columns of a model whose bounds differ: those rows of the model that its box can violate. The part of a row
/// in the other columns has gone to its sides.
///
/// A moved side may be up to 2^97 in size, so a row here may weigh more than the rows of a model may. So `DenseRows` has the
/// left sides alone, and the sides stand beside them. No sum of a row within the box is above 2^96 in size.
#[derive(Debug, Drop)]
pub struct WorkRows {
    left: DenseRows,
    sides: Vec<WorkSides>,
    columns: Vec<u32>,
    cost_constant: i128,
}

impl Model for WorkRows {
    ghost use Rattle.presolve_map.specs.ReducedRows.{ReducedRows};

    ghost Value = { ReducedRows };

    ghost use Rattle.presolve_map.specs.WorkViews.{reduced_of, IsWork};

    ghost view = { λ work. reduced_of work.left work.sides.items work.columns.items work.cost_constant };

    ghost invariant = { λ work. IsWork work.left work.sides.items work.columns.items };
}

impl WorkRows {
    /// How many columns there are.
    pub fn columns(&self) -> usize
        ensures count { result ≡ length self.now.rows.box }
        ensures few { result ≤ 256 }
    {
        let _columns = &self.columns;
        self.left.columns()
    }

    /// How many rows there are.
    pub fn rows(&self) -> usize
        ensures count { result ≡ length self.now.rows.rows }
        ensures few { result ≤ 256 }
    {
        let _columns = &self.columns;
        self.left.rows()
    }

    /// Lends the factors of row `i`, one for each column.
    pub fn row(&self, i: usize) -> &[i128]
        requires { i < length self.now.rows.rows }
        ensures factors { result.now ≡ (row_at self.now.rows i).factors }
        ensures dense { length result.now ≡ length self.now.rows.box }
        ensures light { span result.now self.now.rows.box ≤ 2 ^ 96 }
    {
        let _columns = &self.columns;
        self.left.row(i)
    }

    /// The lower side of row `i`, at most 2^97 in size.
    pub fn low(&self, i: usize) -> Option<i128>
        requires { i < length self.now.rows.rows }
        ensures value { result ≡ (row_at self.now.rows i).low }
        ensures small { size_of_side result ≤ 2 ^ 97 }
    {
        self.sides[i].low
    }

    /// The upper side of row `i`, at most 2^97 in size.
    pub fn high(&self, i: usize) -> Option<i128>
        requires { i < length self.now.rows.rows }
        ensures value { result ≡ (row_at self.now.rows i).high }
        ensures small { size_of_side result ≤ 2 ^ 97 }
    {
        self.sides[i].high
    }

    /// The number of row `i` in the model.
    pub fn original_row(&self, i: usize) -> u32
        requires { i < length self.now.rows.rows }
        ensures { result ≡ slice_index self.now.row_numbers i }
    {
        self.sides[i].number
    }

    /// The number of column `j` in the model.
    pub fn original_column(&self, j: usize) -> u32
        requires { j < length self.now.rows.box }
        ensures { result ≡ slice_index self.now.column_numbers j }
    {
        self.columns[j]
    }

    /// Lends the bounds of the columns, in order.
    pub fn bounds(&self) -> &[Bounds]
        ensures value { result.now ≡ self.now.rows.box }
        ensures light { All (λ bounds. reach bounds ≤ 2 ^ 96) result.now }
    {
        let _columns = &self.columns;
        self.left.bounds()
    }

    /// The least value of column `j`.
    pub fn box_low(&self, j: usize) -> i128
        requires { j < length self.now.rows.box }
        ensures { result ≡ (bounds_at self.now.rows j).low }
    {
        let _columns = &self.columns;
        self.left.box_low(j)
    }

    /// The greatest value of column `j`.
    pub fn box_high(&self, j: usize) -> i128
        requires { j < length self.now.rows.box }
        ensures { result ≡ (bounds_at self.now.rows j).high }
    {
        let _columns = &self.columns;
        self.left.box_high(j)
    }

    /// Lends the costs, one for each column.
    pub fn cost(&self) -> &[i128]
        ensures value { result.now ≡ self.now.rows.cost }
        ensures dense { length result.now ≡ length self.now.rows.box }
        ensures light { span result.now self.now.rows.box ≤ 2 ^ 96 }
    {
        let _columns = &self.columns;
        self.left.cost()
    }

    /// The part of the cost in the columns that are not here: each has one value.
    pub fn cost_constant(&self) -> i128
        ensures { result ≡ self.now.cost_constant }
    {
        self.cost_constant
    }

    /// No rows over a box.
    pub(crate) fn new(
        alloc: Global,
        bounds: Vec<Bounds>,
        columns: Vec<u32>,
        cost: &[i128],
        cost_constant: i128,
    ) -> Result<WorkRows, NoMemory>
        requires few { length bounds.items ≤ 256 }
        requires light { All (λ bounds. reach bounds ≤ 2 ^ 96) bounds.items }
        requires numbered { length columns.items ≡ length bounds.items }
        requires priced { length cost.now ≡ length bounds.items }
        requires light_cost { span cost.now bounds.items ≤ 2 ^ 96 }
        ensures { IfOk result (λ work. work ≡ record { rows = with_cost (rows_over bounds.items) cost.now; row_numbers = []; column_numbers = columns.items; cost_constant = cost_constant }) }
    {
        let mut left = match DenseRows::new(alloc, bounds) {
            Ok(left) => left,
            Err(BoxStop::Heavy(_)) => unreachable!(),
            Err(BoxStop::NoMemory) => return Err(NoMemory),
        };
        let Ok(_) = left.set_cost(cost) else {
            unreachable!()
        };
        Ok(WorkRows {
            left,
            sides: Vec::new(alloc),
            columns,
            cost_constant,
        })
    }

    /// Puts a row at the end, with its number in the model.
    pub(crate) fn push_row(&mut self, factors: &[i128], sides: WorkSides) -> Result<(), NoMemory>
        requires dense { length factors.now ≡ length self.old.rows.box }
        requires room { length self.old.rows.rows < 256 }
        requires light { span factors.now self.old.rows.box ≤ 2 ^ 96 }
        requires small_low { size_of_side sides.low ≤ 2 ^ 97 }
        requires small_high { size_of_side sides.high ≤ 2 ^ 97 }
        ensures { OnOk result (self.new ≡ with_work_row self.old (record { factors = factors.now; low = sides.low; high = sides.high }) sides.number) }
    {
        self.sides.try_reserve(1)?;
        match self.left.push_row(factors, None, None) {
            Ok(()) => {}
            Err(RowStop::Heavy) => unreachable!(),
            Err(RowStop::NoMemory) => return Err(NoMemory),
        }
        self.sides.push(sides).unwrap();
        Ok(())
    }
}
