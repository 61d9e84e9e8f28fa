//! What a tree that holds shows. The function here does nothing; its contract carries the laws.
ghost use Rattle.std.specs.Prelude.{ℤ, List, [], length, Option, Some, None};
ghost use Rattle.whole_rows.specs.WholeRows.{WholeRows, IsWithinLimits, Meets, HasLeastCutValue, cut_value};
ghost use Rattle.farkas_rows.specs.declared.path.Slice.{Slice};
ghost use Rattle.farkas_rows.specs.Refutes.{HasForms, IsOnPath};
ghost use Rattle.proof_tree.specs.declared.tree.Tree.{Tree};
ghost use Rattle.proof_tree.specs.Trees.{Holds};
ghost use Rattle.proof_tree.specs.Soundness.{IsNoBetter};

/// Where a tree holds, no point on the path is better than the last one that was found, and none is there at all where
/// none was found. So a point for whose cut value a tree of the root holds is best.
pub fn holding_tree_is_sound()
    ensures no_better { (rows : WholeRows) (last : Option ℤ) (path : List Slice) (tree : Tree) (x : List ℤ)
        → IsWithinLimits rows → HasForms (length rows.box) path → Holds rows last path tree
        → Meets rows x → IsOnPath path x → IsNoBetter last (cut_value rows x) }
    ensures best { (rows : WholeRows) (x : List ℤ) (tree : Tree)
        → IsWithinLimits rows → Meets rows x → Holds rows (Some (cut_value rows x)) [] tree → HasLeastCutValue rows x }
    ensures none { (rows : WholeRows) (x : List ℤ) (tree : Tree)
        → IsWithinLimits rows → Holds rows None [] tree → Meets rows x → ⊥ }
{}
