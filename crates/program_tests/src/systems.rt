//! Systems and forms of given numbers.
ghost use Rattle.std.specs.Prelude.{◌≡◌, ◌*◌, ◌≤◌, ◌^◌, length, IfOk};

use lp_dict::{Limits, System};
use sequence::NoMemory;
use spaces::{Form, Grid, Kernel};
use std::alloc::Global;

/// The matrix of these items, with so many rows of `width` items each.
pub(crate) fn grid_of(
    alloc: Global,
    rows: usize,
    width: usize,
    items: &[i128],
) -> Result<Grid<Kernel, i128>, NoMemory>
    requires dense { length items.now ≡ rows * width }
    requires small { rows * width ≤ 2 ^ 31 }
    ensures { IfOk result (λ grid. grid ≡ record { rows = rows; width = width; items = items.now }) }
{
    let mut grid = Grid::<Kernel, i128>::filled(alloc, rows, width, 0)?;
    grid.items_mut().copy_from_slice(items);
    Ok(grid)
}

/// The system of these rows, each of `width` entries.
pub(crate) fn system_of(
    alloc: Global,
    width: usize,
    items: &[i128],
    limits: &[i128],
) -> Result<System, NoMemory>
    requires dense { length items.now ≡ length limits.now * width }
    requires small { length limits.now * width ≤ 2 ^ 31 }
    ensures { IfOk result (λ system. (system.rows ≡ record { rows = length limits.now; width = width; items = items.now }) × (system.limits ≡ limits.now)) }
{
    let rows = grid_of(alloc, limits.len(), width, items)?;
    let limits = Limits::from_vec(Vec::from_slice(alloc, limits)?);
    Ok(System { rows, limits })
}

/// The form of these factors.
pub(crate) fn form_of(alloc: Global, factors: &[i128]) -> Result<Form<Kernel>, NoMemory>
    ensures { IfOk result (λ form. form ≡ factors.now) }
{
    Ok(Form::of(Vec::from_slice(alloc, factors)?))
}
