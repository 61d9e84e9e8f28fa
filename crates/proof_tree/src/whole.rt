//! The tree of a part in which no node is open.
ghost use Rattle.std.specs.Prelude.{◌≡◌, IfOk, All};
ghost use Rattle.std.specs.List.{AllZip};
ghost use Rattle.proof_tree.specs.Counts.{open_runs};
ghost use Rattle.proof_tree.specs.Whole.{IsWholeOf};

use crate::tree::{Forest, PartSplit, PartTree, Split, Tree};
use sequence::NoMemory;
use std::alloc::Global;

/// The tree with the lines and the splits of a part.
#[cycle(whole)]
pub(crate) fn whole_tree(alloc: Global, part: PartTree) -> Result<Tree, NoMemory>
    requires { open_runs part ≡ 0 }
    ensures { IfOk result (IsWholeOf part) }
{
    match part {
        PartTree::Open(_) => unreachable!(),
        PartTree::Empty(line) => Ok(Tree::Empty(line)),
        PartTree::Split(split) => {
            let PartSplit { cut, children } = Box::into_inner(split);
            let children = whole_forest(alloc, children)?;
            Ok(Tree::Split(Box::new(alloc, Split { cut, children })?))
        }
    }
}

/// The trees of parts in which no node is open, in order.
#[cycle(whole)]
fn whole_forest(alloc: Global, parts: Vec<PartTree>) -> Result<Forest, NoMemory>
    requires { All (λ part. open_runs part ≡ 0) parts.items }
    ensures { IfOk result (λ forest. AllZip IsWholeOf parts.items forest.trees.items) }
{
    let mut trees = Vec::with_capacity(alloc, parts.len())?;
    for part in parts {
        trees.push(whole_tree(alloc, part)?)?;
    }
    Ok(Forest { trees })
}
