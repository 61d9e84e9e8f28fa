ghost use Rattle.std.specs.Prelude.{◌≡◌, pos, [], ◌∷◌, IfOk};

use lattice_reduce::{ReduceStop, reduce, reduce_beside};
use sequence::NoMemory;
use spaces::{Grid, Kernel, Vect};
use std::alloc::Global;
use std::test::Fail;
use unimodular_pair::Step;

// The rows (a, b) and (c, d).
fn plane(alloc: Global, a: i128, b: i128, c: i128, d: i128) -> Result<Grid<Kernel, i128>, NoMemory>
    ensures { IfOk result (λ grid. grid ≡ record { rows = 2; width = 2; items = a ∷ (b ∷ (c ∷ (d ∷ []))) }) }
{
    let mut grid = Grid::filled(alloc, 2, 2, 0)?;
    let items = grid.items_mut();
    items[0] = a;
    items[1] = b;
    items[2] = c;
    items[3] = d;
    Ok(grid)
}

// The one row (a, b).
fn line(alloc: Global, a: i128, b: i128) -> Result<Grid<Kernel, i128>, NoMemory>
    ensures { IfOk result (λ grid. grid ≡ record { rows = 1; width = 2; items = a ∷ (b ∷ []) }) }
{
    let mut grid = Grid::filled(alloc, 1, 2, 0)?;
    let items = grid.items_mut();
    items[0] = a;
    items[1] = b;
    Ok(grid)
}

#[test]
fn neighbours_change_places(rt: HostRuntime) -> Result<(), Fail> {
    let basis = plane(rt.alloc(), 4, 1, 3, 1)?;
    match reduce(rt.alloc(), &basis) {
        Ok(reduced) => {
            assert_eq!(rt; reduced.basis.rows(), 2);
            assert_eq!(rt; reduced.basis.row(0), [-1, 0].as_slice());
            assert_eq!(rt; reduced.basis.row(1), [0, 1].as_slice());
            assert_eq!(rt; reduced.steps.items().len(), 3);
        }
        Err(_stop) => assert!(rt; false),
    }
    Ok(())
}

#[test]
fn a_square_leaves_the_range(rt: HostRuntime) -> Result<(), Fail> {
    let basis = line(rt.alloc(), 1 << 64, 0)?;
    match reduce(rt.alloc(), &basis) {
        Err(ReduceStop::Excuse(excuse)) => {
            assert_eq!(rt; excuse.steps.items().len(), 0);
        }
        Err(ReduceStop::NoMemory) => assert!(rt; false),
        Ok(_reduced) => assert!(rt; false),
    }
    Ok(())
}

#[test]
fn a_vector_gets_short_beside_a_row(rt: HostRuntime) -> Result<(), Fail> {
    let basis = line(rt.alloc(), 2, 0)?;
    let last = Vect::of(vec![in rt.alloc(); 5, 1]?);
    match reduce_beside(rt.alloc(), &basis, &last) {
        Ok(reduced) => {
            let step = Step::Combine {
                target: 1,
                source: 0,
                factor: -2,
            };
            assert_eq!(rt; reduced.last.items(), [1, 1].as_slice());
            assert_eq!(rt; reduced.steps.items(), [step].as_slice());
            assert_eq!(rt; reduced.basis.rows(), 1);
            assert_eq!(rt; reduced.basis.row(0), [2, 0].as_slice());
        }
        Err(_stop) => assert!(rt; false),
    }
    Ok(())
}
