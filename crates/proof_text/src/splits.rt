//! The three lines of a split, read.
ghost use Rattle.std.specs.Prelude.{◌<◌, ◌≤◌, ◌^◌, ◌-◌, ℕ, ℤ, List, ◌∷◌, MatchOption, IfOk};
ghost use Rattle.whole_rows.specs.WholeRows.{IsWithinLimits};
ghost use Rattle.farkas_rows.specs.declared.line.Line.{Line};
ghost use Rattle.proof_tree.specs.declared.tree.Cut.{Cut};
ghost use Rattle.proof_text.specs.declared.splits.Opening.{Opening};
ghost use Rattle.proof_text.specs.Reads.{TakesFactor, SpellsForm, SpellsOpening, SpellsEnd, SpellsCut};

use crate::items::{read_between, read_factor};
use crate::lines::Lines;
use crate::multipliers::read_line;
use crate::shapes::split_words;
use crate::words::Words;
use farkas_rows::Line;
use proof_tree::{Cut, Mark};
use sequence::NoMemory;
use spaces::{Form, Original};
use std::alloc::Global;
use whole_rows::DenseRows;

/// 2 to the power 97, the greatest size of the value of the first slice.
const MOST_VALUE: i128 = 1 << 97;

/// 2 to the power 98, the most slices that a split may have.
const MOST_SLICES: i128 = 1 << 98;

/// What the first line of a split tells.
#[derive(Debug, Drop)]
pub struct Opening {
    pub mark: Mark,
    pub lo: i128,
    pub count: i128,
    pub form: Form<Original>,
}

/// The factor of this column, which is taken off the words where the first one spells it; else 0.
fn take_factor(words: &mut Words<'_>, column: usize) -> i128
    requires { column < 2 ^ 32 }
    ensures { TakesFactor column words.old words.new result }
{
    let mut rest = words.again();
    let Some(word) = rest.next() else {
        return 0;
    };
    let Some(factor) = read_factor(word) else {
        return 0;
    };
    if factor.column as usize != column {
        return 0;
    }
    *words = rest;
    factor.factor
}

/// The form with a factor for each column that the words spell.
fn read_form(
    alloc: Global,
    columns: usize,
    mut words: Words<'_>,
) -> Result<Option<Form<Original>>, NoMemory>
    requires { columns ≤ 256 }
    ensures { IfOk result (λ read. MatchOption read ((form : List ℤ) → ¬ SpellsForm columns words.entry form) (SpellsForm columns words.entry)) }
{
    let mut form = Vec::with_capacity(alloc, columns)?;
    for column in 0..columns {
        form.push(take_factor(&mut words, column))?;
    }
    if !words.is_empty() {
        return Ok(None);
    }
    Ok(Some(Form::of(form)))
}

/// What the first line of a split tells.
fn read_opening(alloc: Global, columns: usize, text: &[u8]) -> Result<Option<Opening>, NoMemory>
    requires { columns ≤ 256 }
    ensures { IfOk result (λ read. MatchOption read ((opening : Opening) → ¬ SpellsOpening columns text.now opening) (SpellsOpening columns text.now)) }
{
    let Some(words) = split_words(text) else {
        return Ok(None);
    };
    let Some(lo) = read_between(words.lo, -MOST_VALUE, MOST_VALUE) else {
        return Ok(None);
    };
    let Some(count) = read_between(words.count, 0, MOST_SLICES) else {
        return Ok(None);
    };
    let Some(form) = read_form(alloc, columns, words.form)? else {
        return Ok(None);
    };
    Ok(Some(Opening {
        mark: words.mark,
        lo,
        count,
        form,
    }))
}

/// The line of an end of a split, behind its first word of one byte.
fn read_end(
    alloc: Global,
    rows: &DenseRows,
    depth: usize,
    first: u8,
    lines: &mut Lines<'_>,
) -> Result<Option<Line>, NoMemory>
    requires limits { IsWithinLimits rows.now }
    requires depth { depth < 2 ^ 31 - 1024 }
    ensures { IfOk result (λ read. MatchOption read ((line : Line) (rest : List (List ℕ)) → ¬ SpellsEnd rows.now depth first lines.old rest line) (SpellsEnd rows.now depth first lines.old lines.new)) }
{
    let Some(text) = lines.next() else {
        return Ok(None);
    };
    read_line(alloc, rows, depth, true, first, text)
}

/// The split whose first line this is, of a node below so many others.
pub(crate) fn read_cut(
    alloc: Global,
    rows: &DenseRows,
    depth: usize,
    text: &[u8],
    lines: &mut Lines<'_>,
) -> Result<Option<Cut>, NoMemory>
    requires limits { IsWithinLimits rows.now }
    requires depth { depth < 2 ^ 31 - 1024 }
    ensures { IfOk result (λ read. MatchOption read ((cut : Cut) (rest : List (List ℕ)) → ¬ SpellsCut rows.now depth (text.now ∷ lines.old) rest cut) (SpellsCut rows.now depth (text.now ∷ lines.old) lines.new)) }
{
    let Some(opening) = read_opening(alloc, rows.columns(), text)? else {
        return Ok(None);
    };
    let Some(below) = read_end(alloc, rows, depth, b'B', lines)? else {
        return Ok(None);
    };
    let Some(above) = read_end(alloc, rows, depth, b'A', lines)? else {
        return Ok(None);
    };
    Ok(Some(Cut {
        form: opening.form,
        lo: opening.lo,
        count: opening.count,
        below,
        above,
        mark: opening.mark,
    }))
}
