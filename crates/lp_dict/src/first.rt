//! The first dictionary of a system, in which each slack is basic.
ghost use Rattle.std.specs.Prelude.{◌≡◌, ◌+◌, ◌*◌, ◌<◌, ◌≤◌, ◌^◌, [], ◌∷◌, ◌++◌, length, take, IfOk};
ghost use Rattle.std.specs.List.{All};
ghost use Rattle.exact_vectors.specs.Matrices.{rows_of};
ghost use Rattle.frac128.specs.Range.{IsNarrow};
ghost use Rattle.lp_dict.specs.Dictionaries.{none, numbers_from, slack_row, slack_rows};
ghost use Rattle.lp_dict.specs.Systems.{wholes, left_sides};

use frac128::Frac;
use sequence::NoMemory;
use spaces::{Grid, Kernel};
use std::alloc::Global;

/// The `count` variables from `first` on.
pub(crate) fn variables(alloc: Global, first: usize, count: usize) -> Result<Vec<u32>, NoMemory>
    requires { first + count ≤ 2 ^ 32 }
    ensures { IfOk result (λ numbers. numbers.items ≡ numbers_from first count) }
{
    let mut numbers = Vec::with_capacity(alloc, count)?;
    for i in 0..count {
        numbers.push((first + i) as u32)?;
    }
    Ok(numbers)
}

/// Writes the row of a slack: its limit, less the row of the system.
pub(crate) fn write_slack_row(row: &mut [Frac], factors: &[i128], limit: Frac)
    requires size { length row.old ≡ length factors.now + 1 }
    requires narrow_factors { All IsNarrow factors.now }
    ensures { row.new ≡ slack_row (wholes factors.now) limit }
{
    for j in 0..factors.len() {
        row[j] = Frac::whole(factors[j]).neg();
    }
    row[factors.len()] = limit;
}

/// Writes the rows of the slacks, which are all rows but the last.
pub(crate) fn write_slack_rows(
    table: &mut Grid<Kernel, Frac>,
    rows: &Grid<Kernel, i128>,
    limits: &[i128],
)
    requires height { table.old.rows ≡ rows.now.rows + 1 }
    requires width { table.old.width ≡ rows.now.width + 1 }
    requires size { length table.old.items ≡ table.old.rows * table.old.width }
    requires as_many_limits { length limits.now ≡ rows.now.rows }
    requires narrow_rows { All IsNarrow rows.now.items }
    requires narrow_limits { All IsNarrow limits.now }
    ensures height { table.new.rows ≡ rows.now.rows + 1 }
    ensures width { table.new.width ≡ rows.now.width + 1 }
    ensures size { length table.new.items ≡ table.new.rows * table.new.width }
    ensures written { take rows.now.rows (rows_of table.new.width table.new.rows table.new.items) ≡ slack_rows (left_sides rows.now) (wholes limits.now) }
{
    for i in 0..rows.rows() {
        write_slack_row(table.row_mut(i), rows.row(i), Frac::whole(limits[i]));
    }
}

/// Writes the row of the form, whose constant is 0.
pub(crate) fn write_form_row(row: &mut [Frac], factors: &[i128])
    requires size { length row.old ≡ length factors.now + 1 }
    requires narrow { All IsNarrow factors.now }
    ensures { row.new ≡ wholes factors.now ++ none ∷ [] }
{
    for j in 0..factors.len() {
        row[j] = Frac::whole(factors[j]);
    }
    row[factors.len()] = Frac::whole(0);
}
