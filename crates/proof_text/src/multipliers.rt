//! Lines of multipliers, read.
ghost use Rattle.std.specs.Prelude.{◌≡◌, ◌≢◌, ◌<◌, ◌-◌, ◌^◌, List, map, All, MatchOption, IfOk};
ghost use Rattle.whole_rows.specs.WholeRows.{IsWithinLimits};
ghost use Rattle.farkas_rows.specs.declared.line.Line.{Line};
ghost use Rattle.farkas_rows.specs.declared.line.Use.{Use};
ghost use Rattle.proof_text.specs.Spelling.{use_word};
ghost use Rattle.proof_text.specs.Reads.{TakesCut, IsReadUse, SpellsLine};

use crate::items::{Item, read_item};
use crate::shapes::pairs_behind;
use crate::sides::{do_rise, have_sides};
use crate::words::Words;
use farkas_rows::{CutUse, Line, Use, Uses};
use sequence::NoMemory;
use std::alloc::Global;
use whole_rows::DenseRows;

/// Takes the cut off, where the first word spells one.
fn take_cut(words: &mut Words<'_>) -> Option<CutUse>
    ensures { TakesCut words.old words.new result }
{
    let mut rest = words.again();
    let word = rest.next()?;
    match read_item(word) {
        Some(Item::Cut(cut)) => {
            *words = rest;
            Some(cut)
        }
        Some(Item::Inequality(_)) => None,
        None => None,
    }
}

/// The inequality with its multiplier that a word spells.
fn read_use(word: &[u8]) -> Option<Use>
    ensures { MatchOption result ((item : Use) → IsReadUse item → word.now ≢ use_word item) (λ item. IsReadUse item × (word.now ≡ use_word item)) }
{
    match read_item(word)? {
        Item::Cut(_) => None,
        Item::Inequality(item) => Some(item),
    }
}

/// The inequalities with their multipliers that the words spell.
fn read_uses(alloc: Global, mut words: Words<'_>) -> Result<Option<Uses>, NoMemory>
    ensures { IfOk result (λ read. MatchOption read ((items : List Use) → All IsReadUse items → words.entry ≢ map use_word items) (λ items. All IsReadUse items × (words.entry ≡ map use_word items))) }
{
    let mut items = Uses::new(alloc);
    while let Some(word) = words.next() {
        let Some(item) = read_use(word) else {
            return Ok(None);
        };
        items.push(item)?;
    }
    Ok(Some(items))
}

/// The line of multipliers that a text spells behind its first word, of one byte, at a node below so many splits.
pub(crate) fn read_line(
    alloc: Global,
    rows: &DenseRows,
    depth: usize,
    has_end: bool,
    first: u8,
    text: &[u8],
) -> Result<Option<Line>, NoMemory>
    requires limits { IsWithinLimits rows.now }
    requires depth { depth < 2 ^ 31 - 1024 }
    ensures { IfOk result (λ read. MatchOption read ((line : Line) → ¬ SpellsLine rows.now depth has_end first text.now line) (SpellsLine rows.now depth has_end first text.now)) }
{
    let Some(mut words) = pairs_behind(first, text) else {
        return Ok(None);
    };
    let cut = take_cut(&mut words);
    let Some(items) = read_uses(alloc, words)? else {
        return Ok(None);
    };
    if !do_rise(items.items()) || !have_sides(rows, depth, has_end, items.items()) {
        return Ok(None);
    }
    Ok(Some(Line { cut, items }))
}
