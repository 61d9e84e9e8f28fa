//! Trees over small rows, with lines found by hand.
use crate::small_rows::two_constraints;
use farkas_rows::{CutUse, Line, Path, Slice, Use, Uses};
use proof_tree::{Cut, Forest, Mark, Split, Tree, holds};
use spaces::Form;
use std::alloc::Global;
use std::test::Fail;
use whole_rows::{Bounds, DenseRows};

fn line(alloc: Global, cut: Option<CutUse>, items: &[Use]) -> Result<Line, Fail> {
    Ok(Line {
        cut,
        items: Uses::from_vec(items.to_vec(alloc)?),
    })
}

const fn use_of(index: u32, times: i128) -> Use {
    Use { index, times }
}

/// The split of the rows by y at 2, without a slice: below, 3 * (-5x - 4y <= value - 1) + times * (3x + 2y <= 12) + 2 * (y <= 1),
/// and above, (-5x - 4y <= -21) + 5 * (x + 2y <= 6) + 6 * (-y <= -2).
fn worked_cut(alloc: Global, value: i128, times: i128) -> Result<Cut, Fail> {
    let below = Some(CutUse { value, times: 3 });
    let above = Some(CutUse {
        value: -20,
        times: 1,
    });
    Ok(Cut {
        form: Form::of(vec![in alloc; 0, 1]?),
        lo: 2,
        count: 0,
        below: line(alloc, below, &[use_of(0, times), use_of(8, 2)])?,
        above: line(alloc, above, &[use_of(2, 5), use_of(8, 6)])?,
        mark: Mark::Thin,
    })
}

/// A tree of this split, without slices.
fn split_tree(alloc: Global, cut: Cut) -> Result<Tree, Fail> {
    let children = Forest {
        trees: Vec::new(alloc),
    };
    Ok(Tree::Split(Box::new(alloc, Split { cut, children })?))
}

#[test]
fn the_worked_tree_holds(rt: HostRuntime) -> Result<(), Fail> {
    let rows = two_constraints(rt.alloc())?;
    let path = Path::new(rt.alloc());
    // The value of the cut below, the multiplier of the first row, and for which best value the tree is to hold.
    let cases = [
        (-20, 5, Some(-20), true),
        (-20, 6, Some(-20), false),
        (-21, 5, Some(-20), false),
        (-21, 5, Some(-21), true),
        (-20, 5, Some(-19), false),
        (-20, 5, None, false),
    ];
    for (value, times, last, expected) in cases {
        let cut = worked_cut(rt.alloc(), value, times)?;
        let tree = split_tree(rt.alloc(), cut)?;
        assert_eq!(rt; holds(rt.alloc(), &rows, &path, last, &tree)?, expected);
    }
    Ok(())
}

/// From 3 to 3: on the path x = 4 the line x <= 3 with -x <= -4 closes the node, and on x = 3 it is none.
#[test]
fn a_tree_holds_on_a_path(rt: HostRuntime) -> Result<(), Fail> {
    for (beta, expected) in [(4, true), (3, false)] {
        let rows = DenseRows::new(rt.alloc(), vec![in rt.alloc(); Bounds { low: 3, high: 3 }]?)?;
        let form = Form::of(vec![in rt.alloc(); 1]?);
        assert_eq!(rt; form.items().len(), rows.columns());
        let mut path = Path::new(rt.alloc());
        path.push(Slice { form, beta })?;
        let leaf = Tree::Empty(line(rt.alloc(), None, &[use_of(0, 1), use_of(3, 1)])?);
        assert_eq!(rt; holds(rt.alloc(), &rows, &path, None, &leaf)?, expected);
    }
    Ok(())
}
