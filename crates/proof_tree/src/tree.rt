//! What a search tree is made of.
ghost use Rattle.std.specs.Prelude.{◌≡◌, [], ◌∷◌, ◌++◌, OnOk, OnErr, IfErr};

use farkas_rows::Line;
use sequence::NoMemory;
use spaces::{Form, Original, Vect};

/// Which rule chose a split.
#[derive(Clone, Copy, Debug, PartialEq, Eq, Drop)]
pub enum Mark {
    /// A thin direction.
    Thin,
    /// The first column that no slice fixes.
    Plain,
}

/// How a node is split: into the `count` slices on which the form has the values from `lo` on. No point that is looked for
/// lies below them or above them.
#[derive(Debug, Drop)]
pub struct Cut {
    /// A factor for each column.
    pub form: Form<Original>,
    /// The value of the first slice.
    pub lo: i128,
    /// How many slices there are. There may be none.
    pub count: i128,
    /// Why no point has a value below `lo`.
    pub below: Line,
    /// Why no point has a value of `lo + count` or more.
    pub above: Line,
    /// Which rule chose the split.
    pub mark: Mark,
}

/// A tree of nodes, each of which is closed by a line or split into slices.
#[derive(Debug, Drop)]
#[cycle(tree)]
pub enum Tree {
    /// A node that the line closes.
    Empty(Line),
    /// A node that is split.
    Split(Box<Split>),
}

/// A node that is split, with a tree for each of its slices in order.
#[derive(Debug, Drop)]
#[cycle(tree)]
pub struct Split {
    pub cut: Cut,
    pub children: Forest,
}

/// Trees in order.
#[derive(Debug, Drop)]
#[cycle(tree)]
pub struct Forest {
    pub trees: Vec<Tree>,
}

impl Forest {
    /// Puts a tree at the end. Where no memory is to be had, the tree comes back.
    pub fn push(&mut self, tree: Tree) -> Result<(), (Tree, NoMemory)>
        ensures ok { OnOk result (self.new.trees.items ≡ self.old.trees.items ++ tree ∷ []) }
        ensures err { OnErr result (self.new.trees.items ≡ self.old.trees.items) }
        ensures back { IfErr result (λ refused. refused.0 ≡ tree) }
    {
        match self.trees.push(tree) {
            Ok(()) => Ok(()),
            Err(refused) => Err((refused.value, NoMemory)),
        }
    }
}

/// A tree of which some nodes were not worked.
#[derive(Debug, Drop)]
#[cycle(part)]
pub enum PartTree {
    /// So many neighbours that were not worked, or the root.
    Open(i128),
    /// A node that the line closes.
    Empty(Line),
    /// A node that is split.
    Split(Box<PartSplit>),
}

/// A node that is split, with the parts that stand for its slices in order.
#[derive(Debug, Drop)]
#[cycle(part)]
pub struct PartSplit {
    pub cut: Cut,
    pub children: Vec<PartTree>,
}

/// What is done at a node.
#[derive(Debug, Drop)]
pub enum Move {
    /// The line shows that no better point is there.
    Close(Line),
    /// The node is split.
    Split(Cut),
    /// A point that is better than the best one that was known.
    Point(Vect<Original>),
}

/// What a search found.
#[derive(Debug, Drop)]
pub enum Searched {
    /// The tree shows that no point is better than the best one, or that there is none.
    Done {
        tree: Tree,
        best: Option<Vect<Original>>,
    },
    /// The budget is spent, and some node was not worked. The best point so far.
    Spent {
        part: PartTree,
        best: Option<Vect<Original>>,
    },
}
