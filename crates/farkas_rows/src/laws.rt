//! What a line that refutes a node shows. The function here does nothing; its contract carries the law.
ghost use Rattle.std.specs.Prelude.{ℤ, ◌<ℤ◌, List, length, Option, IfSome};
ghost use Rattle.whole_rows.specs.WholeRows.{WholeRows, IsWithinLimits, Meets, cut_value};
ghost use Rattle.farkas_rows.specs.declared.line.Line.{Line};
ghost use Rattle.farkas_rows.specs.declared.path.Slice.{Slice};
ghost use Rattle.farkas_rows.specs.Inequalities.{Inequality, IsMetBy};
ghost use Rattle.farkas_rows.specs.Refutes.{Refutes, HasForms, IsOnPath, IsDense};

/// Where a line refutes a node, no point of the rows lies on the slices and on the end, but for points whose cut value
/// is not below that of the cut that the line uses. This is the easy half of Farkas' lemma (Schrijver, Theory of Linear
/// and Integer Programming, section 7.3).
pub fn refuted_node_has_no_point()
    ensures { (rows : WholeRows) (path : List Slice) (end : Option Inequality) (line : Line) (x : List ℤ)
        → IsWithinLimits rows → HasForms (length rows.box) path → IfSome end (IsDense (length rows.box))
        → Refutes rows path end line
        → Meets rows x → IsOnPath path x → IfSome end (IsMetBy x) → IfSome line.cut (λ cut. cut_value rows x <ℤ cut.value) → ⊥ }
{}
