//! The first line of a split.
ghost use Rattle.std.specs.Prelude.{◌≡◌, ◌↔◌, ◌*◌, ◌^◌, ◌<◌, ◌≤◌, pos, ◌≤ℤ◌, List, ℤ, length, IsTrue, MatchBool, MatchOption, MatchResult};
ghost use Rattle.whole_rows.specs.WholeRows.{IsWithinLimits, span};
ghost use Rattle.proof_text.specs.Items.{SpellsFactor};
ghost use Rattle.tree_checker.specs.Stages.{OpenSplit};
ghost use Rattle.tree_checker.specs.Openings.{AreFormWords, SpellsRange, opening_of, Opens, IsUnopened};

use crate::verdict::RejectKind;
use proof_text::{Factor, SplitWords, Words, read_between, read_factor, split_words};
use proof_tree::Mark;
use spaces::{Form, Original};
use whole_rows::{DenseRows, span_of};

/// 2 to the power 97, the greatest size of the value of the first slice.
const MOST_VALUE: i128 = 1 << 97;

/// 2 to the power 98, the greatest number of slices.
const MOST_SLICES: i128 = 1 << 98;

/// The slices of a split: so many from the value `lo` on.
#[derive(Clone, Copy, Drop)]
pub(crate) struct Range {
    pub(crate) mark: Mark,
    pub(crate) lo: i128,
    pub(crate) count: i128,
}

/// Judges the first line of a split at a node below `depth` slices. The split's form is left in `form`, which has a
/// factor for each column.
pub(crate) fn judge_opening(
    rows: &DenseRows,
    depth: usize,
    form: &mut Form<Original>,
    text: &[u8],
) -> Result<Range, RejectKind>
    requires limits { IsWithinLimits rows.now }
    requires dense { length form.old ≡ length rows.now.box }
    ensures dense { length form.new ≡ length rows.now.box }
    ensures opened { (splits : List OpenSplit) → length splits ≡ depth
        → MatchResult result (λ range. Opens rows.now splits text.now (opening_of range form.new)) (IsUnopened rows.now splits text.now) }
{
    let Some(words) = split_words(text) else {
        return Err(RejectKind::Record);
    };
    let Some(range) = read_range(&words) else {
        return Err(RejectKind::Number);
    };
    if !read_form(form, words.form.again()) {
        return Err(RejectKind::Number);
    }
    if is_too_deep(rows, depth, range.count) {
        return Err(RejectKind::Depth);
    }
    if !is_light(rows, form) {
        return Err(RejectKind::Weight);
    }
    Ok(range)
}

/// Whether the node is so deep that a split may have no slices there, and the split has some.
fn is_too_deep(rows: &DenseRows, depth: usize, count: i128) -> bool
    ensures { IsTrue result ↔ ((2 * length rows.now.box ≤ depth) × (pos 1 ≤ℤ count)) }
{
    depth >= 2 * rows.columns() && count > 0
}

/// Whether the form weighs at most 2 to the power 96.
fn is_light(rows: &DenseRows, form: &Form<Original>) -> bool
    requires { length form.now ≡ length rows.now.box }
    ensures { IsTrue result ↔ (span form.now rows.now.box ≤ 2 ^ 96) }
{
    span_of(form.items(), rows.bounds()).is_some()
}

/// The values of the slices, where their spelling and their ranges are right.
fn read_range(words: &SplitWords<'_>) -> Option<Range>
    ensures { MatchOption result ((range : Range) → ¬ SpellsRange words.now range) (SpellsRange words.now) }
{
    let lo = read_between(words.lo, -MOST_VALUE, MOST_VALUE)?;
    let count = read_between(words.count, 0, MOST_SLICES)?;
    Some(Range {
        mark: words.mark,
        lo,
        count,
    })
}

/// Reads a form with a factor for each column. False where the words are none.
fn read_form(form: &mut Form<Original>, mut words: Words<'_>) -> bool
    requires { length form.old ≤ 256 }
    ensures dense { length form.new ≡ length form.old }
    ensures read { MatchBool result (AreFormWords words.entry form.new) ((other : List ℤ) → length other ≡ length form.old → ¬ AreFormWords words.entry other) }
{
    form.clear();
    let mut next = 0;
    while let Some(word) = words.next() {
        let Some(factor) = next_factor(word, next, form.items().len()) else {
            return false;
        };
        let column = factor.column as usize;
        form.set(column, factor.factor);
        next = column + 1;
    }
    true
}

/// The factor that a word spells, where its column is at least `next` and below `columns`.
fn next_factor(word: &[u8], next: usize, columns: usize) -> Option<Factor>
    ensures { MatchOption result ((factor : Factor) → SpellsFactor word.now factor → next ≤ factor.column → ¬ (factor.column < columns))
        (λ factor. SpellsFactor word.now factor × (next ≤ factor.column) × (factor.column < columns)) }
{
    let factor = read_factor(word)?;
    let column = factor.column as usize;
    if column < next || column >= columns {
        return None;
    }
    Some(factor)
}
