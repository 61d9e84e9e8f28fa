//! What the rows that are left have that the others have not. The function here does nothing; its contract carries the law.
ghost use Rattle.std.specs.Prelude.{◌≡◌, ◌↔◌, ℤ, List, length, IsTrue};
ghost use Rattle.whole_rows.specs.declared.bounds.Bounds.{Bounds};
ghost use Rattle.whole_rows.specs.WholeRows.{WholeRow, LiesIn, MeetsRow};
ghost use Rattle.plain_slices.specs.Nodes.{IsOpenBox};
ghost use Rattle.presolve_map.specs.ReducedRows.{can_violate};

/// Where no bounds cross, a row is left exactly where some values within the box do not meet it.
pub fn needed_row_is_violated_within_the_box()
    ensures { (box : List Bounds) (row : WholeRow) → IsOpenBox box → length row.factors ≡ length box → IsTrue (can_violate box row) ↔ ((x : List ℤ) × (LiesIn box x) × (MeetsRow row x → ⊥)) }
{}
