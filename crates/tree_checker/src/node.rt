//! The lines of a node, each at its place.
ghost use Rattle.std.specs.Prelude.{◌≡◌, ◌↔◌, ℕ, ◌+◌, ◌*◌, ◌≤◌, List, ℤ, [], ◌∷◌, length, codes, IsTrue, IfOk, OnErr, MatchResult};
ghost use Rattle.whole_rows.specs.WholeRows.{WholeRows, IsWithinLimits};
ghost use Rattle.proof_text.specs.declared.claim.Claim.{Claim};
ghost use Rattle.tree_checker.specs.Accepts.{last_of};
ghost use Rattle.tree_checker.specs.Stages.{OpenSplit, at_head, at_node, at_below, at_above, at_done, behind, into};
ghost use Rattle.tree_checker.specs.Passes.{PassesTo};
ghost use Rattle.tree_checker.specs.Faults.{IsFault};
ghost use Rattle.tree_checker.specs.Openings.{opening_of};
ghost use Rattle.tree_checker.specs.Judging.{stage_of, IsRange, HasRange};

use crate::closing::judge_line;
use crate::opening::{Range, judge_opening};
use crate::stack::OpenSplits;
use crate::step::Step;
use crate::verdict::RejectKind;
use farkas_rows::{End, Use};
use spaces::{Form, Original};
use whole_rows::DenseRows;

/// Judges the first line.
pub(crate) fn judge_head(text: &[u8]) -> Result<Step, RejectKind>
    ensures step { IfOk result (λ step. step ≡ Step.Claim) }
    ensures judged { (rows : WholeRows) (claimed : Claim) (splits : List OpenSplit) (form : List ℤ)
        → MatchResult result (λ step. PassesTo rows at_head text.now (stage_of step claimed splits form)) (IsFault rows at_head text.now) }
{
    if is_head(text) {
        Ok(Step::Claim)
    } else {
        Err(RejectKind::Head)
    }
}

fn is_head(text: &[u8]) -> bool
    ensures { IsTrue result ↔ (text.now ≡ codes "SLICER 1") }
{
    matches!(text, [b'S', b'L', b'I', b'C', b'E', b'R', b' ', b'1'])
}

/// Judges the last line.
pub(crate) fn judge_done(text: &[u8]) -> Result<Step, RejectKind>
    ensures step { IfOk result (λ step. step ≡ Step.End) }
    ensures judged { (rows : WholeRows) (claimed : Claim) (splits : List OpenSplit) (form : List ℤ)
        → MatchResult result (λ step. PassesTo rows (at_done claimed) text.now (stage_of step claimed splits form)) (IsFault rows (at_done claimed) text.now) }
{
    if is_done(text) {
        Ok(Step::End)
    } else {
        Err(RejectKind::Record)
    }
}

fn is_done(text: &[u8]) -> bool
    ensures { IsTrue result ↔ (text.now ≡ codes "DONE") }
{
    matches!(text, [b'D', b'O', b'N', b'E'])
}

/// Judges the line of a node below the open splits, or the first line of a split there, whose form is left in `form`.
/// `last` is the cut value that no cut may fall below.
pub(crate) fn judge_node(
    rows: &DenseRows,
    splits: &mut OpenSplits,
    form: &mut Form<Original>,
    last: Option<i128>,
    items: &mut [Use],
    text: &[u8],
) -> Result<Step, RejectKind>
    requires limits { IsWithinLimits rows.now }
    requires columns { splits.old.columns ≡ length rows.now.box }
    requires dense { length form.old ≡ length rows.now.box }
    requires room { 2 * length rows.now.rows + 6 * length rows.now.box + 1 ≤ length items.old }
    ensures columns { splits.new.columns ≡ length rows.now.box }
    ensures dense { length form.new ≡ length rows.now.box }
    ensures range { IfOk result (HasRange (length rows.now.box) splits.new.splits) }
    ensures judged { (claimed : Claim) → last ≡ last_of rows.now claimed
        → MatchResult result (λ step. PassesTo rows.now (at_node claimed splits.old.splits) text.now (stage_of step claimed splits.new.splits form.new)) (IsFault rows.now (at_node claimed splits.old.splits) text.now) }
{
    if is_leaf(text) {
        judge_leaf(rows, splits, last, items, text)
    } else {
        judge_split(rows, splits, form, text)
    }
}

/// Whether the first byte is that of the line of a node without slices.
fn is_leaf(text: &[u8]) -> bool
    ensures { IsTrue result ↔ ((rest : List ℕ) × (text.now ≡ 69 ∷ rest)) }
{
    matches!(text, [b'E', ..])
}

fn judge_leaf(
    rows: &DenseRows,
    splits: &mut OpenSplits,
    last: Option<i128>,
    items: &mut [Use],
    text: &[u8],
) -> Result<Step, RejectKind>
    requires columns { splits.old.columns ≡ length rows.now.box }
    requires room { 2 * length rows.now.rows + 6 * length rows.now.box + 1 ≤ length items.old }
    requires leaf { (rest : List ℕ) × (text.now ≡ 69 ∷ rest) }
    ensures columns { splits.new.columns ≡ length rows.now.box }
    ensures range { IfOk result (HasRange (length rows.now.box) splits.new.splits) }
    ensures judged { (claimed : Claim) (form : List ℤ) → last ≡ last_of rows.now claimed
        → MatchResult result (λ step. PassesTo rows.now (at_node claimed splits.old.splits) text.now (stage_of step claimed splits.new.splits form)) (IsFault rows.now (at_node claimed splits.old.splits) text.now) }
{
    let end = End::Absent;
    if let Some(kind) = judge_line(rows, splits.path(), &end, last, items, b'E', text) {
        return Err(kind);
    }
    Ok(step_behind(splits))
}

fn judge_split(
    rows: &DenseRows,
    splits: &OpenSplits,
    form: &mut Form<Original>,
    text: &[u8],
) -> Result<Step, RejectKind>
    requires limits { IsWithinLimits rows.now }
    requires columns { splits.now.columns ≡ length rows.now.box }
    requires dense { length form.old ≡ length rows.now.box }
    requires leaf { ¬ ((rest : List ℕ) × (text.now ≡ 69 ∷ rest)) }
    ensures dense { length form.new ≡ length rows.now.box }
    ensures range { IfOk result (HasRange (length rows.now.box) splits.now.splits) }
    ensures judged { (claimed : Claim)
        → MatchResult result (λ step. PassesTo rows.now (at_node claimed splits.now.splits) text.now (stage_of step claimed splits.now.splits form.new)) (IsFault rows.now (at_node claimed splits.now.splits) text.now) }
{
    let range = judge_opening(rows, splits.depth(), form, text)?;
    Ok(Step::Below(range))
}

/// Judges the line of the end below the slices of a split.
pub(crate) fn judge_below(
    rows: &DenseRows,
    splits: &OpenSplits,
    form: &Form<Original>,
    range: Range,
    last: Option<i128>,
    items: &mut [Use],
    text: &[u8],
) -> Result<Step, RejectKind>
    requires columns { splits.now.columns ≡ length rows.now.box }
    requires dense { length form.now ≡ length rows.now.box }
    requires room { 2 * length rows.now.rows + 6 * length rows.now.box + 1 ≤ length items.old }
    requires range { IsRange (length rows.now.box) splits.now.splits range }
    ensures range { IfOk result (HasRange (length rows.now.box) splits.now.splits) }
    ensures judged { (claimed : Claim) → last ≡ last_of rows.now claimed
        → MatchResult result (λ step. PassesTo rows.now (at_below claimed splits.now.splits (opening_of range form.now)) text.now (stage_of step claimed splits.now.splits form.now))
        (IsFault rows.now (at_below claimed splits.now.splits (opening_of range form.now)) text.now) }
{
    let end = End::Below { form, lo: range.lo };
    match judge_line(rows, splits.path(), &end, last, items, b'B', text) {
        Some(kind) => Err(kind),
        None => Ok(Step::Above(range)),
    }
}

/// Judges the line of the end above the slices of a split. Where it passes, the split is open at its first slice; one
/// without slices is behind.
pub(crate) fn judge_above(
    rows: &DenseRows,
    splits: &mut OpenSplits,
    form: &mut Form<Original>,
    range: Range,
    last: Option<i128>,
    items: &mut [Use],
    text: &[u8],
) -> Result<Step, RejectKind>
    requires columns { splits.old.columns ≡ length rows.now.box }
    requires dense { length form.old ≡ length rows.now.box }
    requires room { 2 * length rows.now.rows + 6 * length rows.now.box + 1 ≤ length items.old }
    requires range { IsRange (length rows.now.box) splits.old.splits range }
    ensures columns { splits.new.columns ≡ length rows.now.box }
    ensures dense { length form.new ≡ length rows.now.box }
    ensures range { IfOk result (HasRange (length rows.now.box) splits.new.splits) }
    ensures kept { OnErr result (splits.new.splits ≡ splits.old.splits) }
    ensures judged { (claimed : Claim) → last ≡ last_of rows.now claimed
        → MatchResult result (λ step. PassesTo rows.now (at_above claimed splits.old.splits (opening_of range form.old)) text.now (stage_of step claimed splits.new.splits form.new))
        (IsFault rows.now (at_above claimed splits.old.splits (opening_of range form.old)) text.now) }
{
    let end = End::Above {
        form,
        from: range.lo + range.count,
    };
    if let Some(kind) = judge_line(rows, splits.path(), &end, last, items, b'A', text) {
        return Err(kind);
    }
    Ok(step_into(splits, form, range))
}

/// What comes behind a node: the next slice of a split, or the last line.
fn step_behind(splits: &mut OpenSplits) -> Step
    ensures columns { splits.new.columns ≡ splits.old.columns }
    ensures range { (columns : ℕ) → HasRange columns splits.new.splits result }
    ensures behind { (claimed : Claim) (form : List ℤ) → behind claimed splits.old.splits ≡ stage_of result claimed splits.new.splits form }
{
    if splits.go_on() {
        Step::Node
    } else {
        Step::Done
    }
}

/// What comes behind the ends of a split: its first slice, or what is behind the node.
fn step_into(splits: &mut OpenSplits, form: &mut Form<Original>, range: Range) -> Step
    requires dense { length form.old ≡ splits.old.columns }
    requires range { IsRange splits.old.columns splits.old.splits range }
    ensures columns { splits.new.columns ≡ splits.old.columns }
    ensures dense { length form.new ≡ splits.old.columns }
    ensures range { (columns : ℕ) → HasRange columns splits.new.splits result }
    ensures into { (claimed : Claim) → into claimed splits.old.splits (opening_of range form.old) ≡ stage_of result claimed splits.new.splits form.new }
{
    if range.count == 0 {
        return step_behind(splits);
    }
    splits.enter(form, range.lo, range.lo + range.count);
    Step::Node
}
