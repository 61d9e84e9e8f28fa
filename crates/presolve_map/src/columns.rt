//! Which columns are kept, and the map from their values to those of all columns.
ghost use Rattle.std.specs.Prelude.{◌≡◌, ℕ, ◌^◌, ◌≤◌, ◌+◌, length, map, take, drop, ◌++◌, IfOk, OnOk};
ghost use Rattle.presolve_map.specs.Selections.{select, positions};
ghost use Rattle.presolve_map.specs.Columns.{is_open, open_flags, removed_value, removed_values, kept_columns, IsColumnMap};
ghost use Rattle.presolve_map.specs.Removed.{removed_bounds};

use sequence::NoMemory;
use spaces::{Affine, Grid, Original, Vect, Work};
use std::alloc::Global;
use whole_rows::Bounds;

/// For each column, whether its bounds differ.
pub(crate) fn open_flags(alloc: Global, bounds: &[Bounds]) -> Result<Vec<bool>, NoMemory>
    ensures { IfOk result (λ flags. flags.items ≡ open_flags bounds.now) }
{
    let flags = bounds.iter().map(|b| b.low != b.high).collect(alloc)?;
    Ok(flags)
}

/// The numbers of the flags that are set.
pub(crate) fn positions(alloc: Global, flags: &[bool]) -> Result<Vec<u32>, NoMemory>
    requires { length flags.now ≤ 256 }
    ensures { IfOk result (λ numbers. numbers.items ≡ positions 0 flags.now) }
{
    let mut numbers = Vec::new(alloc);
    for i in 0..flags.len() {
        if flags[i] {
            numbers.push(i as u32)?;
        }
    }
    Ok(numbers)
}

/// The items whose flag is set.
pub(crate) fn selected<T: Copy>(
    alloc: Global,
    flags: &[bool],
    from: &[T],
) -> Result<Vec<T>, NoMemory>
    requires { length flags.now ≡ length from.now }
    ensures { IfOk result (λ items. items.items ≡ select flags.now from.now) }
{
    let mut items = Vec::new(alloc);
    append_selected(&mut items, flags, from)?;
    Ok(items)
}

/// Puts the items whose flag is set at the end.
pub(crate) fn append_selected<T: Copy>(
    items: &mut Vec<T>,
    flags: &[bool],
    from: &[T],
) -> Result<(), NoMemory>
    requires { length flags.now ≡ length from.now }
    ensures { OnOk result (items.new.items ≡ items.old.items ++ select flags.now from.now) }
{
    for i in 0..flags.len() {
        if flags[i] {
            items.push(from[i])?;
        }
    }
    Ok(())
}

/// The bounds of the columns that are removed, and 0 to 0 in the place of those that are kept.
pub(crate) fn removed_bounds(alloc: Global, bounds: &[Bounds]) -> Result<Vec<Bounds>, NoMemory>
    ensures { IfOk result (λ removed. removed.items ≡ removed_bounds bounds.now) }
{
    let removed = bounds.iter().map(|b| only_value(*b)).collect(alloc)?;
    Ok(removed)
}

/// The only value of a column that is removed, as its bounds; 0 for one that is kept.
fn only_value(bounds: Bounds) -> Bounds
    ensures { result ≡ record { low = removed_value bounds; high = removed_value bounds } }
{
    let value = if bounds.low != bounds.high {
        0
    } else {
        bounds.low
    };
    Bounds {
        low: value,
        high: value,
    }
}
