//! What an accepted text shows. The functions here do nothing; their contracts carry the laws.
ghost use Rattle.std.specs.Prelude.{◌≡◌, ℕ, ◌^◌, ◌<◌, List, length};
ghost use Rattle.whole_rows.specs.WholeRows.{WholeRows, IsWithinLimits};
ghost use Rattle.proof_text.specs.declared.claim.Claim.{Claim};
ghost use Rattle.tree_checker.specs.Accepts.{Accepts, IsTrueOf};
ghost use Rattle.tree_checker.specs.Passes.{PassesWhole};
ghost use Rattle.tree_checker.specs.Verdicts.{IsVerdict};
ghost use Rattle.tree_checker.specs.declared.verdict.Verdict.{Verdict};

use std::alloc::Global;

/// Where a text is accepted its claim is true: the claimed point has the least cut value of all points of the rows, or
/// there is none.
pub fn accepted_is_true()
    ensures { (rows : WholeRows) (text : List ℕ) (claim : Claim) → IsWithinLimits rows → Accepts rows text claim → IsTrueOf rows claim }
{}

/// A text is accepted exactly where its lines pass, each at its place, from the head to the end.
pub fn accepted_by_lines(_alloc: Global)
    ensures passes { (rows : WholeRows) (text : List ℕ) (claim : Claim) → Accepts rows text claim → PassesWhole rows text claim }
    ensures accepted { (rows : WholeRows) (text : List ℕ) (claim : Claim) → IsWithinLimits rows → length text < 2 ^ 64 → PassesWhole rows text claim → Accepts rows text claim }
{}

/// A text has one verdict at most: it is accepted with one claim, or it has one first line that is refused, for one
/// reason.
pub fn one_verdict()
    ensures { (rows : WholeRows) (text : List ℕ) (verdict other : Verdict) → IsWithinLimits rows → IsVerdict rows text verdict → IsVerdict rows text other → verdict ≡ other }
{}
