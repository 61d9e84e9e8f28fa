//! What chooses the move of each node of a search.
ghost use Rattle.std.specs.Prelude.{◌≡◌, ℕ, ◌+◌, ◌*◌, ◌^◌, ◌≤◌, Bool, IsTrue, ℤ, pos, ◌+ℤ◌, ◌≤ℤ◌, ◌<ℤ◌, List, length, Option, IfSome, IfOk};
ghost use Rattle.whole_rows.specs.WholeRows.{WholeRows};
ghost use Rattle.farkas_rows.specs.declared.path.Slice.{Slice};
ghost use Rattle.proof_tree.specs.declared.tree.Move.{Move};
ghost use Rattle.proof_tree.specs.Trees.{IsOfSize};
ghost use Rattle.proof_tree.specs.Moves.{IsNoHigher, IsValueOfPoint, IsMove, Branches, IsChildOf};

use crate::tree::{Cut, Move};
use farkas_rows::Path;
use sequence::NoMemory;

/// Chooses the move of each node of a search.
///
/// A place is what a brancher keeps of a node. Its meanings depend on the rows that the brancher works for and on nothing else
/// of it, so no call changes them: a place that was not handed in still stands for what it stood for.
pub trait Brancher {
    /// What is kept of a node while it is worked and its children are made.
    type Place: Drop;

    /// The rows that it works for.
    ghost rows: { Self → WholeRows };

    /// The place stands for the node of this path while the best point that is known has this cut value, or none is known.
    ghost stands_for: { WholeRows → Self.Place → List Slice → Option ℤ → Type 0 };

    /// How many slices may still be put on the path below this place, at most.
    ghost height: { WholeRows → Self.Place → List Slice → ℕ };

    /// The node and all below it are split by single columns.
    ghost is_plain: { Self.Place → Bool };

    /// The moves that may be made at the node of this path while the best point that is known has this cut value, or none is.
    ghost allows: { WholeRows → List Slice → Option ℤ → Move → Type 0 };

    /// What the place of the node of this path may become as the node is worked under this best value, or none.
    ghost becomes: { WholeRows → Self.Place → Self.Place → List Slice → Option ℤ → Type 0 };

    /// With what place a slice of the node of this path begins: the one on which the form has the value.
    ghost begins: { WholeRows → Self.Place → List Slice → List ℤ → ℤ → Self.Place → Type 0 };

    /// Chooses the move of the place's node, where `best` is the cut value of the best point that is known, from -2^97 to 2^97.
    /// The place still stands for the node afterwards, also where memory ran out, and may have become plain.
    ///
    /// Its lines refute by themselves and use no cut but that of `best`, a split has at most one slice more than the greatest
    /// difference between the bounds of a column, and a point is better than the best one. After a point the node is worked again.
    fn work(
        &mut self,
        place: &mut Self::Place,
        path: &Path,
        best: Option<i128>,
    ) -> Result<Move, NoMemory>
        requires stands { stands_for (rows self.old) place.old path.now best }
        requires best { IfSome best (IsOfSize (2 ^ 97)) }
        ensures same { rows self.new ≡ rows self.old }
        ensures becomes { becomes (rows self.old) place.old place.new path.now best }
        ensures stands { stands_for (rows self.old) place.new path.now best }
        ensures height { height (rows self.old) place.new path.now ≤ height (rows self.old) place.old path.now }
        ensures plain { IsTrue (is_plain place.old) → IsTrue (is_plain place.new) }
        ensures chosen { IfOk result
            (IsMove (rows self.old) path.now best (height (rows self.old) place.new path.now) (is_plain place.new)) }
        ensures allowed { IfOk result (allows (rows self.old) path.now best) };

    /// The place of child `j`, from 0 to `count - 1`, of the place's node, for which the place chose the split `cut` under some best
    /// value or none: the slice with the value `cut.lo + j`.
    fn child(&mut self, place: &Self::Place, cut: &Cut, j: i128) -> Result<Self::Place, NoMemory>
        requires branches { (path : List Slice) × (best : Option ℤ) × Branches stands_for height is_plain allows (rows self.old) place.now cut.now path best }
        requires first { pos 0 ≤ℤ j }
        requires last { j <ℤ cut.now.count }
        ensures same { rows self.new ≡ rows self.old }
        ensures place { IfOk result (λ child. (path : List Slice) (best : Option ℤ)
            → Branches stands_for height is_plain allows (rows self.old) place.now cut.now path best
            → IsChildOf stands_for height is_plain (rows self.old) place.now path cut.now.form (cut.now.lo +ℤ j) child) }
        ensures begins { IfOk result (λ child. (path : List Slice) (best : Option ℤ)
            → Branches stands_for height is_plain allows (rows self.old) place.now cut.now path best
            → begins (rows self.old) place.now path cut.now.form (cut.now.lo +ℤ j) child) };

    /// A place that stands for a node under a best value stands for it under each lower one that a point has.
    ghost stands_lower: { (rows : WholeRows) (place : Self.Place) (path : List Slice) (now before : Option ℤ) → IsValueOfPoint rows now → IsNoHigher now before → stands_for rows place path before → stands_for rows place path now };

    /// No path is longer than two slices for each column.
    ghost short: { (rows : WholeRows) (place : Self.Place) (path : List Slice) (best : Option ℤ) → stands_for rows place path best → length path + height rows place path ≤ 2 * length rows.box };
}
