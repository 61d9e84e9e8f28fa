//! Numbers, read from the words that spell them.
ghost use Rattle.std.specs.Prelude.{◌≡◌, ◌≢◌, ℕ, ◌+◌, ◌-◌, ◌*◌, ◌^◌, ◌≤◌, ℤ, List, ◌∷◌, ◌↔◌, IsTrue, codes, All, MatchOption, SomeIff};
ghost use Rattle.proof_text.specs.Shapes.{IsDigit};
ghost use Rattle.proof_text.specs.Numbers.{continued as number_with, SpellsSize, SpellsNumber};

use crate::shapes::is_digits_word;

// The greatest size of a number: 2 to the power 126.
const LIMIT: u128 = 1 << 126;

// A number of at most this size and one more digit fit 64 bits.
const SHORT: u128 = 1_000_000_000_000_000_000;

fn with_digit(value: u128, digit: u8) -> Option<u128>
    requires { IsDigit digit }
    ensures { let next = 10 * value + (digit - 48) in SomeIff result (next ≤ 2 ^ 126) next }
{
    let digit = digit - b'0';
    if value <= SHORT {
        return Some(u128::from(value as u64 * 10 + u64::from(digit)));
    }
    let value = value.checked_mul(10)?.checked_add(u128::from(digit))?;
    if value <= LIMIT { Some(value) } else { None }
}

// The value of digits.
fn value(digits: &[u8]) -> Option<u128>
    requires { All IsDigit digits.now }
    ensures { let number = number_with 0 digits.now in SomeIff result (number ≤ 2 ^ 126) number }
{
    let mut value = 0;
    for digit in digits {
        value = with_digit(value, *digit)?;
    }
    Some(value)
}

fn is_zero(word: &[u8]) -> bool
    ensures { IsTrue result ↔ (word.now ≡ codes "0") }
{
    matches!(word, [b'0'])
}

/// The number without a sign that a word spells, where it is at most 2 to the power 126.
pub fn read_size(word: &[u8]) -> Option<u128>
    ensures { MatchOption result ((number : ℕ) → ¬ SpellsSize word.now number) (SpellsSize word.now) }
{
    if is_zero(word) {
        return Some(0);
    }
    if !is_digits_word(word) {
        return None;
    }
    value(word)
}

// What stands behind a minus.
fn behind_minus(word: &[u8]) -> Option<&[u8]>
    ensures { MatchOption result ((rest : List ℕ) → word.now ≢ 45 ∷ rest) (λ rest. word.now ≡ 45 ∷ rest.now) }
{
    match word {
        [b'-', rest @ ..] => Some(rest),
        _ => None,
    }
}

/// The number that a word spells, where its size is at most 2 to the power 126.
pub fn read_number(word: &[u8]) -> Option<i128>
    ensures { MatchOption result ((number : ℤ) → ¬ SpellsNumber word.now number) (SpellsNumber word.now) }
{
    match behind_minus(word) {
        None => Some(read_size(word)? as i128),
        Some(digits) => {
            let size = read_size(digits)?;
            if size == 0 {
                return None;
            }
            Some(-(size as i128))
        }
    }
}
