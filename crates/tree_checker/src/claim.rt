//! The second line: the claim.
ghost use Rattle.std.specs.Prelude.{◌≡◌, ◌↔◌, ◌≤◌, List, ℤ, length, codes, IsTrue, MatchBool, MatchResult};
ghost use Rattle.whole_rows.specs.WholeRows.{IsWithinLimits};
ghost use Rattle.tree_checker.specs.Stages.{at_claim};
ghost use Rattle.tree_checker.specs.Faults.{IsFault};
ghost use Rattle.tree_checker.specs.Claims.{AreNumbers, IsClaimed};

use crate::verdict::RejectKind;
use proof_text::{Words, numbers_behind, read_between};
use whole_rows::DenseRows;

/// 2 to the power 96, the greatest size of a value.
const MOST: i128 = 1 << 96;

/// Judges the line of a claim. A point that is claimed is left in `point`, which has a number for each column, and its
/// cut value is answered; none where the claim is that there is no point.
pub(crate) fn judge_claim(
    rows: &DenseRows,
    point: &mut [i128],
    text: &[u8],
) -> Result<Option<i128>, RejectKind>
    requires limits { IsWithinLimits rows.now }
    requires dense { length point.old ≡ length rows.now.box }
    ensures { MatchResult result (IsClaimed rows.now text.now point.new) (IsFault rows.now at_claim text.now) }
{
    if is_infeasible(text) {
        return Ok(None);
    }
    let Some(words) = numbers_behind(text) else {
        return Err(RejectKind::Claim);
    };
    if !read_point(point, words) {
        return Err(RejectKind::Point);
    }
    if !rows.is_point(point) {
        return Err(RejectKind::Point);
    }
    Ok(Some(rows.cut_value(point)))
}

fn is_infeasible(text: &[u8]) -> bool
    ensures { IsTrue result ↔ (text.now ≡ codes "INFEASIBLE") }
{
    matches!(
        text,
        [b'I', b'N', b'F', b'E', b'A', b'S', b'I', b'B', b'L', b'E']
    )
}

/// Reads the numbers of a point, as many as there is room for, none larger than 2 to the power 96 in size. False where
/// the words are no such numbers.
fn read_point(point: &mut [i128], mut words: Words<'_>) -> bool
    ensures { MatchBool result (AreNumbers words.entry point.new) ((x : List ℤ) → length x ≡ length point.old → ¬ AreNumbers words.entry x) }
{
    let mut filled = 0;
    while let Some(word) = words.next() {
        let Some(number) = read_between(word, -MOST, MOST) else {
            return false;
        };
        if filled == point.len() {
            return false;
        }
        point[filled] = number;
        filled += 1;
    }
    filled == point.len()
}
