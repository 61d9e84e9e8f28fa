//! The shape of a line, before its numbers are read.
ghost use Rattle.std.specs.Prelude.{◌≡◌, ◌≢◌, ◌↔◌, ℕ, List, ◌++◌, [], ◌∷◌, IsTrue, MatchOption, codes, All};
ghost use Rattle.proof_text.specs.Spelling.{in_words, mark_word};
ghost use Rattle.proof_text.specs.Shapes.{IsToken, IsDigit, IsDigitsWord, IsNumberWord, IsPair, ArePairs, IsMarkWord, HasLineShape, HasSplitShape, HasPointShape};
ghost use Rattle.proof_text.specs.Words.{words_of};
ghost use Rattle.proof_text.specs.Lent.{IsPairOf, AreSplitWords};

use crate::words::{Words, cut};
use proof_tree::Mark;

/// What stands in front of a colon and behind it.
#[derive(Clone, Copy, Debug)]
pub struct Pair<'a> {
    pub first: &'a [u8],
    pub second: &'a [u8],
}

/// The words of the first line of a split, whose numbers are not read yet.
#[derive(Debug, Drop)]
pub struct SplitWords<'a> {
    pub mark: Mark,
    /// The value of the first slice.
    pub lo: &'a [u8],
    /// How many slices there are.
    pub count: &'a [u8],
    /// Pairs of a column and a factor.
    pub form: Words<'a>,
}

fn is_token_byte(byte: u8) -> bool
    ensures { IsTrue result ↔ ((byte ≢ 32) × (byte ≢ 58)) }
{
    byte != b' ' && byte != b':'
}

fn is_token(word: &[u8]) -> bool
    ensures { IsTrue result ↔ IsToken word.now }
{
    !word.is_empty() && word.iter().all(|byte| is_token_byte(*byte))
}

/// The two tokens of a word, between which a colon stands.
pub fn cut_pair(word: &[u8]) -> Option<Pair<'_>>
    ensures { MatchOption result (¬ IsPair word.now) (IsPairOf word.now) }
{
    let parts = cut(word, b':')?;
    if !is_token(parts.front) || !is_token(parts.back) {
        return None;
    }
    Some(Pair {
        first: parts.front,
        second: parts.back,
    })
}

fn is_pair(word: &[u8]) -> bool
    ensures { IsTrue result ↔ IsPair word.now }
{
    cut_pair(word).is_some()
}

// Whether each of the words is a pair.
fn are_all_pairs(mut words: Words<'_>) -> bool
    ensures { IsTrue result ↔ All IsPair words.entry }
{
    while let Some(word) = words.next() {
        if !is_pair(word) {
            return false;
        }
    }
    true
}

// What stands behind a first byte and a blank.
fn behind<'a>(first: u8, line: &'a [u8]) -> Option<&'a [u8]>
    ensures { MatchOption result ((rest : List ℕ) → line.now ≢ first ∷ 32 ∷ rest) (λ rest. line.now ≡ first ∷ 32 ∷ rest.now) }
{
    match line {
        [byte, b' ', rest @ ..] if *byte == first => Some(rest),
        _ => None,
    }
}

/// The pairs of a line of multipliers with this first word, or none where the line has not this shape.
pub fn pairs_behind<'a>(first: u8, line: &'a [u8]) -> Option<Words<'a>>
    ensures { MatchOption result (¬ HasLineShape (first ∷ []) line.now) (λ words. (line.now ≡ in_words ((first ∷ []) ∷ words)) × ArePairs words) }
{
    let rest = behind(first, line)?;
    let words = Words::of(rest);
    if !are_all_pairs(words.again()) {
        return None;
    }
    Some(words)
}

// How a mark is spelled, read back.
fn mark_of(word: &[u8]) -> Option<Mark>
    ensures { MatchOption result (¬ IsMarkWord word.now) (λ mark. word.now ≡ mark_word mark) }
{
    match word {
        [b'T'] => Some(Mark::Thin),
        [b'P'] => Some(Mark::Plain),
        _ => None,
    }
}

/// The words of the first line of a split, or none where the line has not this shape.
pub fn split_words(line: &[u8]) -> Option<SplitWords<'_>>
    ensures { MatchOption result (¬ HasSplitShape line.now) (AreSplitWords line.now) }
{
    match line {
        [b'S', b' ', rest @ ..] => split_parts(rest),
        _ => None,
    }
}

// The words behind the first one.
fn split_parts(rest: &[u8]) -> Option<SplitWords<'_>>
    ensures { MatchOption result (¬ HasSplitShape (83 ∷ 32 ∷ rest.now)) (AreSplitWords (83 ∷ 32 ∷ rest.now)) }
{
    let mut words = Words::of(rest);
    let mark = mark_of(words.next()?)?;
    let lo = words.next()?;
    let count = words.next()?;
    if !is_token(lo) || !is_token(count) || words.is_empty() || !are_all_pairs(words.again()) {
        return None;
    }
    Some(SplitWords {
        mark,
        lo,
        count,
        form: words,
    })
}

fn is_digit(byte: u8) -> bool
    ensures { IsTrue result ↔ IsDigit byte }
{
    byte >= b'0' && byte <= b'9'
}

fn are_digits(text: &[u8]) -> bool
    ensures { IsTrue result ↔ All IsDigit text.now }
{
    text.iter().all(|byte| is_digit(*byte))
}

/// Digits without a leading 0.
pub(crate) fn is_digits_word(word: &[u8]) -> bool
    ensures { IsTrue result ↔ IsDigitsWord word.now }
{
    match word {
        [first, digits @ ..] => *first >= b'1' && *first <= b'9' && are_digits(digits),
        [] => false,
    }
}

fn is_number_word(word: &[u8]) -> bool
    ensures { IsTrue result ↔ IsNumberWord word.now }
{
    match word {
        [b'0'] => true,
        [b'-', digits @ ..] => is_digits_word(digits),
        _ => is_digits_word(word),
    }
}

// Whether each of the words is a number, of any length.
fn are_all_numbers(mut words: Words<'_>) -> bool
    ensures { IsTrue result ↔ All IsNumberWord words.entry }
{
    while let Some(word) = words.next() {
        if !is_number_word(word) {
            return false;
        }
    }
    true
}

fn is_optimal(word: &[u8]) -> bool
    ensures { IsTrue result ↔ (word.now ≡ codes "OPTIMAL") }
{
    matches!(word, [b'O', b'P', b'T', b'I', b'M', b'A', b'L'])
}

/// The numbers of a point that is claimed to be best, or none where the line has not this shape.
pub fn numbers_behind(line: &[u8]) -> Option<Words<'_>>
    ensures { MatchOption result (¬ HasPointShape line.now) (λ words. (line.now ≡ in_words (codes "OPTIMAL" ∷ words)) × All IsNumberWord words) }
{
    let mut words = Words::of(line);
    let first = words.next()?;
    if !is_optimal(first) || !are_all_numbers(words.again()) {
        return None;
    }
    Some(words)
}
