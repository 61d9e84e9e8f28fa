//! The two lines in front of the nodes, and the last line, read.
ghost use Rattle.std.specs.Prelude.{◌≡◌, ◌≢◌, ◌↔◌, ◌^◌, ℕ, ℤ, List, [], ◌∷◌, map, All, codes, IsTrue, MatchOption, IfOk};
ghost use Rattle.std.specs.Fmt.{signed_decimal};
ghost use Rattle.proof_tree.specs.Trees.{IsOfSize};
ghost use Rattle.proof_text.specs.declared.claim.Claim.{Claim};
ghost use Rattle.proof_text.specs.Reads.{SpellsClaim, SpellsHead};

use crate::claim::Claim;
use crate::items::read_between;
use crate::lines::Lines;
use crate::shapes::numbers_behind;
use crate::words::Words;
use sequence::NoMemory;
use spaces::Vect;
use std::alloc::Global;

/// 2 to the power 96, the greatest size of a value of a point.
const MOST_VALUE: i128 = 1 << 96;

/// The values of a point that the words spell.
fn read_values(alloc: Global, mut words: Words<'_>) -> Result<Option<Vec<i128>>, NoMemory>
    ensures { IfOk result (λ read. MatchOption read ((values : List ℤ) → All (IsOfSize (2 ^ 96)) values → words.entry ≢ map signed_decimal values) (λ values. All (IsOfSize (2 ^ 96)) values.items × (words.entry ≡ map signed_decimal values.items))) }
{
    let mut values = Vec::new(alloc);
    while let Some(word) = words.next() {
        let Some(value) = read_between(word, -MOST_VALUE, MOST_VALUE) else {
            return Ok(None);
        };
        values.push(value)?;
    }
    Ok(Some(values))
}

fn is_infeasible(text: &[u8]) -> bool
    ensures { IsTrue result ↔ (text.now ≡ codes "INFEASIBLE") }
{
    matches!(
        text,
        [b'I', b'N', b'F', b'E', b'A', b'S', b'I', b'B', b'L', b'E']
    )
}

/// The finished claim that a line spells, where a point has so many values.
fn read_claim(alloc: Global, columns: usize, text: &[u8]) -> Result<Option<Claim>, NoMemory>
    ensures { IfOk result (λ read. MatchOption read ((claim : Claim) → ¬ SpellsClaim columns text.now claim) (SpellsClaim columns text.now)) }
{
    if is_infeasible(text) {
        return Ok(Some(Claim::Infeasible));
    }
    let Some(words) = numbers_behind(text) else {
        return Ok(None);
    };
    let Some(values) = read_values(alloc, words)? else {
        return Ok(None);
    };
    if values.len() != columns {
        return Ok(None);
    }
    Ok(Some(Claim::Optimal(Vect::of(values))))
}

fn is_title(text: &[u8]) -> bool
    ensures { IsTrue result ↔ (text.now ≡ codes "SLICER 1") }
{
    matches!(text, [b'S', b'L', b'I', b'C', b'E', b'R', b' ', b'1'])
}

/// The finished claim that the two first lines make, where a point has so many values.
pub(crate) fn read_head(
    alloc: Global,
    columns: usize,
    lines: &mut Lines<'_>,
) -> Result<Option<Claim>, NoMemory>
    ensures { IfOk result (λ read. MatchOption read ((claim : Claim) (rest : List (List ℕ)) → ¬ SpellsHead columns lines.old rest claim) (SpellsHead columns lines.old lines.new)) }
{
    let Some(title) = lines.next() else {
        return Ok(None);
    };
    if !is_title(title) {
        return Ok(None);
    }
    let Some(text) = lines.next() else {
        return Ok(None);
    };
    read_claim(alloc, columns, text)
}

fn is_done(text: &[u8]) -> bool
    ensures { IsTrue result ↔ (text.now ≡ codes "DONE") }
{
    matches!(text, [b'D', b'O', b'N', b'E'])
}

/// Whether the last line is left, and nothing behind it.
pub(crate) fn ends(mut lines: Lines<'_>) -> bool
    ensures { IsTrue result ↔ (lines.entry ≡ codes "DONE" ∷ [] ∷ []) }
{
    let Some(text) = lines.next() else {
        return false;
    };
    let Some(behind) = lines.next() else {
        return false;
    };
    if !is_done(text) || !behind.is_empty() {
        return false;
    }
    lines.next().is_none()
}
