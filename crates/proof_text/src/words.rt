//! The words of a line, lent one after another.
ghost use Rattle.std.specs.Prelude.{◌≡◌, ◌++◌, [], ◌∷◌, ◌==◌, ◌↔◌, IsTrue, position, MatchOption};
ghost use Rattle.proof_text.specs.Words.{IsFreeOf, words_of};

use std::marker::Model;

/// The words of a line that are left.
#[derive(Debug, Drop)]
pub struct Words<'a> {
    rest: &'a [u8],
    is_done: bool,
}

impl<'a> Model for Words<'a> {
    ghost use Rattle.std.specs.Prelude.{ℕ, List, [], if◌then◌else◌};
    ghost use Rattle.proof_text.specs.Words.{words_of};

    ghost Value = { List (List ℕ) };

    ghost view = { λ words. if words.is_done then [] else words_of words.rest.now };
}

impl<'a> Words<'a> {
    /// All words of a line.
    pub fn of(line: &'a [u8]) -> Words<'a>
        ensures { result ≡ words_of line.now }
    {
        Words {
            rest: line,
            is_done: false,
        }
    }

    /// The same words once more.
    pub fn again(&self) -> Words<'a>
        ensures { result ≡ self.now }
    {
        Words {
            rest: self.rest,
            is_done: self.is_done,
        }
    }

    /// Whether no word is left.
    pub fn is_empty(&self) -> bool
        ensures { IsTrue result ↔ (self.now ≡ []) }
    {
        self.is_done
    }

    /// Takes the first word off.
    pub fn next(&mut self) -> Option<&'a [u8]>
        ensures { MatchOption result ((self.old ≡ []) × (self.new ≡ [])) (λ word. self.old ≡ word.now ∷ self.new) }
    {
        if self.is_done {
            return None;
        }
        let line = self.rest;
        match cut(line, b' ') {
            None => {
                self.is_done = true;
                Some(line)
            }
            Some(parts) => {
                self.rest = parts.back;
                Some(parts.front)
            }
        }
    }
}

/// What stands in front of a byte and behind it.
#[derive(Clone, Copy)]
pub(crate) struct Parts<'a> {
    pub(crate) front: &'a [u8],
    pub(crate) back: &'a [u8],
}

fn first_place(text: &[u8], byte: u8) -> Option<usize>
    ensures { result ≡ position (λ other. other == byte) text.now }
{
    text.iter().position(|other| *other == byte)
}

/// Cuts a text at the first byte that is this one.
pub(crate) fn cut(text: &[u8], byte: u8) -> Option<Parts<'_>>
    ensures { MatchOption result (IsFreeOf byte text.now) (λ parts. (text.now ≡ parts.front.now ++ byte ∷ parts.back.now) × IsFreeOf byte parts.front.now) }
{
    let place = first_place(text, byte)?;
    let (front, back) = text.split_at(place);
    let (_, back) = back.split_at(1);
    Some(Parts { front, back })
}
