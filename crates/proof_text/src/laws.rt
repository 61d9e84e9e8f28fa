//! What spelling says. The function here does nothing; its contract carries the laws.
ghost use Rattle.std.specs.Prelude.{◌≡◌, ℕ, ◌^◌, ◌<◌, List, length};
ghost use Rattle.whole_rows.specs.WholeRows.{WholeRows, IsWithinLimits};
ghost use Rattle.proof_tree.specs.declared.tree.Tree.{Tree};
ghost use Rattle.proof_text.specs.declared.claim.Claim.{Claim};
ghost use Rattle.proof_text.specs.Printable.{Spells};
ghost use Rattle.proof_text.specs.OneReading.{IsSameTree};

/// No text spells two claims, nor two trees, and no claim with a tree is spelled by two texts.
pub fn one_reading()
    ensures reading { (rows : WholeRows) (text : List ℕ) (claim other : Claim) (tree another : Tree) → IsWithinLimits rows → length text < 2 ^ 64
        → Spells rows text claim tree → Spells rows text other another → (claim ≡ other) × IsSameTree tree another }
    ensures spelling { (rows : WholeRows) (text other : List ℕ) (claim : Claim) (tree : Tree)
        → Spells rows text claim tree → Spells rows other claim tree → text ≡ other }
{}
