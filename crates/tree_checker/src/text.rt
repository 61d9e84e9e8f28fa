//! The checking of a whole text.
ghost use Rattle.std.specs.Prelude.{◌≡◌, ◌⊎◌, List, ℕ, [], ◌∷◌, ◌++◌, ◌<◌, ◌≤◌, length, take, slice_index, IfOk, MatchOption};
ghost use Rattle.tree_checker.specs.declared.verdict.RejectKind.TheVariants as kinds;
ghost use Rattle.tree_checker.specs.Accepts.{longest};
ghost use Rattle.tree_checker.specs.Stages.{at_head};
ghost use Rattle.tree_checker.specs.Passes.{PassesTo};
ghost use Rattle.tree_checker.specs.Faults.{IsFault};
ghost use Rattle.tree_checker.specs.Rejects.{IsLine, RejectsAt};
ghost use Rattle.tree_checker.specs.Verdicts.{IsVerdict};
ghost use Rattle.tree_checker.specs.Judging.{IsAtEnd, PassesAll};

use crate::judge::Judge;
use crate::verdict::{Reject, RejectKind, Verdict};
use proof_text::NoMemory;
use std::alloc::Global;
use whole_rows::DenseRows;

/// The most bytes that a line may have in front of its line feed.
const LONGEST: usize = 98_304;

/// Whether a proof text shows its claim of the rows: accepted with its claim, or refused at its first fault.
pub fn check(alloc: Global, rows: &DenseRows, text: &[u8]) -> Result<Verdict, NoMemory>
    ensures { IfOk result (IsVerdict rows.now text.now) }
{
    let _columns = rows.columns();
    let mut judge = Judge::new(alloc, rows)?;
    match first_fault(&mut judge, text) {
        Some(reject) => Ok(Verdict::Rejected(reject)),
        None => Ok(Verdict::Accepted(judge.into_claim())),
    }
}

/// The first fault of a text, whose lines the judge is handed from the first one on; none where all of them pass.
fn first_fault(judge: &mut Judge<'_>, text: &[u8]) -> Option<Reject>
    requires { judge.old.stage ≡ at_head }
    ensures { MatchOption result (IsAtEnd judge.new.stage × PassesAll judge.old.rows text.now judge.new.stage) (RejectsAt judge.old.rows text.now) }
{
    let mut rest = text;
    let mut number = 1;
    while !judge.is_at_end() {
        let Some(parts) = cut_line(rest) else {
            let kind = kind_by_length(rest, RejectKind::Short);
            return Some(Reject { kind, line: number });
        };
        if let Some(kind) = judge_line(judge, parts.line) {
            return Some(Reject { kind, line: number });
        }
        rest = parts.rest;
        number += 1;
    }
    if rest.is_empty() {
        return None;
    }
    let kind = kind_by_length(first_line(rest), RejectKind::Tail);
    Some(Reject { kind, line: number })
}

/// Why a line does not pass, which may be too long; no reason where it does.
fn judge_line(judge: &mut Judge<'_>, line: &[u8]) -> Option<RejectKind>
    requires { ¬ IsAtEnd judge.old.stage }
    ensures rows { judge.new.rows ≡ judge.old.rows }
    ensures judged { MatchOption result ((length line.now ≤ longest) × PassesTo judge.old.rows judge.old.stage line.now judge.new.stage)
        (λ kind. ((kind ≡ kinds.LongLine) × (longest < length line.now)) ⊎ ((length line.now ≤ longest) × IsFault judge.old.rows judge.old.stage line.now kind)) }
{
    if line.len() > LONGEST {
        return Some(RejectKind::LongLine);
    }
    judge.line(line)
}

/// A line that is too long has this fault before another one.
fn kind_by_length(line: &[u8], other: RejectKind) -> RejectKind
    ensures { ((result ≡ kinds.LongLine) × (longest < length line.now)) ⊎ ((result ≡ other) × (length line.now ≤ longest)) }
{
    if line.len() > LONGEST {
        RejectKind::LongLine
    } else {
        other
    }
}

/// A line without its line feed, and what stands behind that.
#[derive(Clone, Copy)]
struct LineParts<'a> {
    line: &'a [u8],
    rest: &'a [u8],
}

/// How many bytes stand in front of the first line feed, or in all.
fn line_length(text: &[u8]) -> usize
    ensures within { result ≤ length text.now }
    ensures line { IsLine (take result text.now) }
    ensures feed { result < length text.now → slice_index text.now result ≡ 10 }
{
    for (i, byte) in text.iter().enumerate() {
        if *byte == b'\n' {
            return i;
        }
    }
    text.len()
}

/// The first line of a text, where it has a line feed.
fn cut_line(text: &[u8]) -> Option<LineParts<'_>>
    ensures { MatchOption result (IsLine text.now) (λ parts. (text.now ≡ parts.line.now ++ 10 ∷ parts.rest.now) × IsLine parts.line.now) }
{
    let end = line_length(text);
    if end == text.len() {
        return None;
    }
    Some(LineParts {
        line: &text[..end],
        rest: &text[end + 1..],
    })
}

/// The bytes in front of the first line feed, or all of them.
fn first_line(text: &[u8]) -> &[u8]
    ensures { (more : List ℕ) × (text.now ≡ result.now ++ more) × IsLine result.now × ((more ≡ []) ⊎ ((next : List ℕ) × (more ≡ 10 ∷ next))) }
{
    &text[..line_length(text)]
}
