//! The lines of a text, lent one after another.
ghost use Rattle.std.specs.Prelude.{◌≡◌, [], ◌∷◌, ◌↔◌, IsTrue, MatchOption};
ghost use Rattle.proof_text.specs.Lines.{parts_of};

use crate::words::cut;
use std::marker::Model;

/// The parts of a text that are left, between its line feeds: its lines, and then what stands behind the last line feed.
#[derive(Debug, Drop)]
pub(crate) struct Lines<'a> {
    rest: &'a [u8],
    is_done: bool,
}

impl<'a> Model for Lines<'a> {
    ghost use Rattle.std.specs.Prelude.{ℕ, List, [], if◌then◌else◌};
    ghost use Rattle.proof_text.specs.Lines.{parts_of};

    ghost Value = { List (List ℕ) };

    ghost view = { λ lines. if lines.is_done then [] else parts_of lines.rest.now };
}

impl<'a> Lines<'a> {
    /// All parts of a text.
    pub(crate) fn of(text: &'a [u8]) -> Lines<'a>
        ensures { result ≡ parts_of text.now }
    {
        Lines {
            rest: text,
            is_done: false,
        }
    }

    /// Takes the first part off.
    pub(crate) fn next(&mut self) -> Option<&'a [u8]>
        ensures { MatchOption result ((self.old ≡ []) × (self.new ≡ [])) (λ line. self.old ≡ line.now ∷ self.new) }
    {
        if self.is_done {
            return None;
        }
        let text = self.rest;
        match cut(text, b'\n') {
            None => {
                self.is_done = true;
                Some(text)
            }
            Some(parts) => {
                self.rest = parts.back;
                Some(parts.front)
            }
        }
    }
}
