//! How large a tree is.
ghost use Rattle.std.specs.Prelude.{◌≡◌, ◌+◌, ◌^◌, ◌<◌};
ghost use Rattle.proof_tree.specs.Counts.{records, records_of_part, plain_splits, plain_splits_of_part, plain_of as plain_count};

use proof_tree::{Mark, PartTree, Tree};

/// How many nodes of a tree were worked, and how many of them were split by single columns.
#[derive(Clone, Copy, Debug, Drop)]
pub(crate) struct Counts {
    pub(crate) nodes: u64,
    pub(crate) plain: u64,
}

// 1 for a split by a single column.
fn plain_of(mark: Mark) -> u64
    ensures { result ≡ plain_count mark }
{
    match mark {
        Mark::Thin => 0,
        Mark::Plain => 1,
    }
}

/// Counts the nodes of a tree.
pub(crate) fn count_tree(tree: &Tree) -> Counts
    requires { records tree.now < 2 ^ 64 }
    ensures nodes { result.nodes ≡ records tree.now }
    ensures plain { result.plain ≡ plain_splits tree.now }
{
    match tree {
        Tree::Empty(_) => Counts { nodes: 1, plain: 0 },
        Tree::Split(split) => {
            let mut counts = Counts {
                nodes: 1,
                plain: plain_of(split.cut.mark),
            };
            for child in &split.children.trees {
                let below = count_tree(child);
                counts.nodes += below.nodes;
                counts.plain += below.plain;
            }
            counts
        }
    }
}

/// Counts the nodes of a tree that were worked.
pub(crate) fn count_part(part: &PartTree) -> Counts
    requires { records_of_part part.now < 2 ^ 64 }
    ensures nodes { result.nodes ≡ records_of_part part.now }
    ensures plain { result.plain ≡ plain_splits_of_part part.now }
{
    match part {
        PartTree::Open(_) => Counts { nodes: 0, plain: 0 },
        PartTree::Empty(_) => Counts { nodes: 1, plain: 0 },
        PartTree::Split(split) => {
            let mut counts = Counts {
                nodes: 1,
                plain: plain_of(split.cut.mark),
            };
            for child in &split.children {
                let below = count_part(child);
                counts.nodes += below.nodes;
                counts.plain += below.plain;
            }
            counts
        }
    }
}
