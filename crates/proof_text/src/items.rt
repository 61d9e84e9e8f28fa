//! The words of a line of multipliers and of a form, read one at a time.
ghost use Rattle.std.specs.Prelude.{◌≡◌, ◌≢◌, ℕ, ℤ, ◌^◌, ◌<◌, pos, negsuc, neg_ℤ, ◌≤ℤ◌, List, ◌∷◌, MatchOption, decimal};
ghost use Rattle.proof_text.specs.Items.{SpellsBetween, SpellsItem, SpellsFactor};

use crate::numbers::{read_number, read_size};
use crate::shapes::cut_pair;
use farkas_rows::{CutUse, Use};

/// 2 to the power 126, the greatest multiplier.
const MOST_TIMES: i128 = 1 << 126;

/// 2 to the power 97, the greatest size of the value of a cut.
const MOST_VALUE: i128 = 1 << 97;

/// 2 to the power 96, the greatest size of a factor.
const MOST_FACTOR: i128 = 1 << 96;

/// A word of a line of multipliers.
#[derive(Clone, Copy, Debug, Drop)]
pub enum Item {
    Cut(CutUse),
    Inequality(Use),
}

/// A word of a form: a factor that is not 0, in this column.
#[derive(Clone, Copy, Debug, Drop)]
pub struct Factor {
    pub column: u32,
    pub factor: i128,
}

/// The number that a word spells, where it lies between two others, whose size is at most 2 to the power 126.
pub fn read_between(word: &[u8], low: i128, high: i128) -> Option<i128>
    requires low { neg_ℤ (pos (2 ^ 126)) ≤ℤ low }
    requires high { high ≤ℤ pos (2 ^ 126) }
    ensures { MatchOption result ((number : ℤ) → ¬ SpellsBetween low high word.now number) (SpellsBetween low high word.now) }
{
    let number = read_number(word)?;
    if number < low || number > high {
        return None;
    }
    Some(number)
}

// A number without a sign that 32 bits hold.
fn read_place(word: &[u8]) -> Option<u32>
    ensures { MatchOption result ((place : ℕ) → place < 2 ^ 32 → word.now ≢ decimal place) (λ place. word.now ≡ decimal place) }
{
    let place = read_size(word)?;
    if place > u128::from(u32::MAX) {
        return None;
    }
    Some(place as u32)
}

// What stands behind the letter of the cut.
fn behind_letter(word: &[u8]) -> Option<&[u8]>
    ensures { MatchOption result ((rest : List ℕ) → word.now ≢ 90 ∷ rest) (λ rest. word.now ≡ 90 ∷ rest.now) }
{
    match word {
        [b'Z', rest @ ..] => Some(rest),
        _ => None,
    }
}

/// The cut or the inequality that a word of a line of multipliers spells, with its multiplier.
pub fn read_item(word: &[u8]) -> Option<Item>
    ensures { MatchOption result ((item : Item) → ¬ SpellsItem word.now item) (SpellsItem word.now) }
{
    let parts = cut_pair(word)?;
    let times = read_between(parts.second, 1, MOST_TIMES)?;
    match behind_letter(parts.first) {
        Some(digits) => {
            let value = read_between(digits, -MOST_VALUE, MOST_VALUE)?;
            Some(Item::Cut(CutUse { value, times }))
        }
        None => {
            let index = read_place(parts.first)?;
            Some(Item::Inequality(Use { index, times }))
        }
    }
}

/// The column with its factor that a word of a form spells.
pub fn read_factor(word: &[u8]) -> Option<Factor>
    ensures { MatchOption result ((factor : Factor) → ¬ SpellsFactor word.now factor) (SpellsFactor word.now) }
{
    let parts = cut_pair(word)?;
    let column = read_place(parts.first)?;
    let factor = read_between(parts.second, -MOST_FACTOR, MOST_FACTOR)?;
    if factor == 0 {
        return None;
    }
    Some(Factor { column, factor })
}
