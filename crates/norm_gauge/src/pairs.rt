//! The pair system of a system and some rows.
ghost use Rattle.std.specs.Prelude.{◌≡◌, ◌+◌, ◌*◌, ◌≤◌, ◌^◌, pos, negsuc, nat_abs, ◌++◌, length, take, flat_map, IfOk, OnOk};
ghost use Rattle.std.specs.List.{All};
ghost use Rattle.exact_math.specs.Ring.{integers};
ghost use Rattle.exact_vectors.specs.Vectors.{scale};
ghost use Rattle.frac128.specs.Range.{IsNarrow};
ghost use Rattle.exact_vectors.specs.Matrices.{HasWidth};
ghost use Rattle.lp_dict.specs.Systems.{left_sides};
ghost use Rattle.spaces.specs.Tables.{rows_in};
ghost use Rattle.norm_gauge.specs.PairSystems.{pair_system};
ghost use Rattle.norm_gauge.specs.Widths.{AreNarrow, first_rows, polytope_of};
ghost use Rattle.norm_gauge.specs.PairTables.{pair_row, difference_rows, pair_items, pair_sides, pair_table};

use lp_dict::{Limits, System};
use sequence::NoMemory;
use spaces::{Form, Grid, Kernel};
use std::alloc::Global;

// Puts the factors at the end, each times the sign.
fn append_signed(items: &mut Vec<i128>, factors: &[i128], sign: i128) -> Result<(), NoMemory>
    requires sign { nat_abs sign ≤ 1 }
    requires narrow { All IsNarrow factors.now }
    ensures { OnOk result (items.new.items ≡ items.old.items ++ scale integers sign factors.now) }
{
    for factor in factors {
        items.push(sign * *factor)?;
    }
    Ok(())
}

// Puts a row on the first point and on the second at the end, with a sign for each.
fn append_row(
    items: &mut Vec<i128>,
    row: &[i128],
    first: i128,
    second: i128,
) -> Result<(), NoMemory>
    requires first { nat_abs first ≤ 1 }
    requires second { nat_abs second ≤ 1 }
    requires narrow { All IsNarrow row.now }
    ensures { OnOk result (items.new.items ≡ items.old.items ++ pair_row first second row.now) }
{
    append_signed(items, row, first)?;
    append_signed(items, row, second)?;
    Ok(())
}

// Puts such a row for each row of the matrix at the end.
fn append_rows(
    items: &mut Vec<i128>,
    rows: &Grid<Kernel, i128>,
    first: i128,
    second: i128,
) -> Result<(), NoMemory>
    requires first { nat_abs first ≤ 1 }
    requires second { nat_abs second ≤ 1 }
    requires narrow { All IsNarrow rows.now.items }
    ensures { OnOk result (items.new.items ≡ items.old.items ++ flat_map (pair_row first second) (rows_in rows.now)) }
{
    for k in 0..rows.rows() {
        append_row(items, rows.row(k), first, second)?;
    }
    Ok(())
}

// Puts the differences of the first `i` rows at the end.
fn append_differences(
    items: &mut Vec<i128>,
    basis: &Grid<Kernel, i128>,
    i: usize,
) -> Result<(), NoMemory>
    requires within { i ≤ basis.now.rows }
    requires narrow { AreNarrow (rows_in basis.now) }
    ensures { OnOk result (items.new.items ≡ items.old.items ++ flat_map difference_rows (take i (rows_in basis.now))) }
{
    for k in 0..i {
        append_row(items, basis.row(k), 1, -1)?;
        append_row(items, basis.row(k), -1, 1)?;
    }
    Ok(())
}

// The rows of the pair system, one after another.
fn rows_of_pairs(
    alloc: Global,
    rows: &Grid<Kernel, i128>,
    basis: &Grid<Kernel, i128>,
    i: usize,
) -> Result<Vec<i128>, NoMemory>
    requires within { i ≤ basis.now.rows }
    requires narrow_rows { All IsNarrow rows.now.items }
    requires narrow_basis { AreNarrow (rows_in basis.now) }
    ensures { IfOk result (λ items. items.items ≡ pair_items (rows_in rows.now) (take i (rows_in basis.now))) }
{
    let mut items = Vec::new(alloc);
    append_rows(&mut items, rows, 1, 0)?;
    append_rows(&mut items, rows, 0, 1)?;
    append_differences(&mut items, basis, i)?;
    Ok(items)
}

// The right sides of the pair system.
fn sides_of_pairs(alloc: Global, limits: &[i128], i: usize) -> Result<Limits, NoMemory>
    requires { i ≤ 2 ^ 31 }
    ensures { IfOk result (λ sides. sides ≡ pair_sides limits.now i) }
{
    let mut items = Vec::new(alloc);
    items.extend_from_slice(limits)?;
    items.extend_from_slice(limits)?;
    for _row in 0..i + i {
        items.push(0)?;
    }
    Ok(Limits::from_vec(items))
}

/// The pair system of the system and the first `i` rows of the basis.
pub(crate) fn system_of_pairs(
    alloc: Global,
    system: &System,
    basis: &Grid<Kernel, i128>,
    i: usize,
) -> Result<System, NoMemory>
    requires within { i ≤ basis.now.rows }
    requires same_width { basis.now.width ≡ system.now.rows.width }
    requires few { ((system.now.rows.rows + system.now.rows.rows) + (i + i) + 1) * (system.now.rows.width + system.now.rows.width + 1) ≤ 2 ^ 31 }
    requires narrow_rows { All IsNarrow system.now.rows.items }
    requires narrow_basis { AreNarrow (rows_in basis.now) }
    ensures rows { IfOk result (λ pairs. pairs.rows ≡ pair_table system.now.rows basis.now i) }
    ensures limits { IfOk result (λ pairs. pairs.limits ≡ pair_sides system.now.limits i) }
    ensures polytope { OnOk result (polytope_of (pair_table system.now.rows basis.now i) (pair_sides system.now.limits i) ≡ pair_system (polytope_of system.now.rows system.now.limits) (first_rows basis.now i)) }
    ensures wide_rows { OnOk result (HasWidth system.now.rows.width (left_sides system.now.rows)) }
    ensures wide_basis { OnOk result (HasWidth system.now.rows.width (first_rows basis.now i)) }
{
    let count = system.rows.rows();
    let width = basis.width();
    let items = rows_of_pairs(alloc, &system.rows, basis, i)?;
    let mut rows = Grid::filled(alloc, (count + count) + (i + i), width + width, 0)?;
    rows.items_mut().copy_from_slice(items.as_slice());
    let limits = sides_of_pairs(alloc, system.limits.items(), i)?;
    Ok(System { rows, limits })
}

/// The form of the pair system whose least value is minus the width.
pub(crate) fn form_of_pairs(alloc: Global, form: &Form<Kernel>) -> Result<Form<Kernel>, NoMemory>
    requires { All IsNarrow form.now }
    ensures { IfOk result (λ pairs. pairs ≡ pair_row (negsuc 0) (pos 1) form.now) }
{
    let mut items = Vec::new(alloc);
    append_row(&mut items, form.items(), -1, 1)?;
    Ok(Form::of(items))
}

/// The form with the other sign.
pub(crate) fn opposite(alloc: Global, form: &Form<Kernel>) -> Result<Form<Kernel>, NoMemory>
    requires { All IsNarrow form.now }
    ensures { IfOk result (λ other. other ≡ scale integers (negsuc 0) form.now) }
{
    let mut items = Vec::new(alloc);
    append_signed(&mut items, form.items(), -1)?;
    Ok(Form::of(items))
}
