//! The lines of a text. Every line is a slice of the text.
ghost use Rattle.std.specs.Prelude.{◌≡◌, ◌<◌, ◌≤◌, ◌==◌, ◌∷◌, position, length};
ghost use Rattle.std.specs.List.{position_or_len};
ghost use Rattle.mps_fields.specs.Lines.{pieces_of, lines_of, without_return as unreturned, numbered, most_bytes};

use std::marker::Model;

/// A line, without its line feed and the carriage return before it. Lines count from 1.
#[derive(Clone, Copy, Debug)]
pub struct TextLine<'a> {
    pub bytes: &'a [u8],
    pub number: u32,
}

/// The lines of a text that are left, in order. Contracts see the list of them.
#[derive(Debug, Drop)]
pub struct LineScan<'a> {
    rest: &'a [u8],
    number: u32,
}

impl<'a> Model for LineScan<'a> {
    ghost use Rattle.std.specs.Prelude.{◌+◌, ◌≤◌, length, List};
    ghost use Rattle.mps_fields.specs.Lines.{Line, lines_of, numbered, most_bytes};

    ghost Value = { List Line };

    ghost view = { λ s. numbered s.number (lines_of s.rest.now) };

    ghost invariant = { λ s. s.number + length s.rest.now ≤ most_bytes + 1 };
}

/// The lines of a text, which has at most 16,777,216 bytes.
pub fn lines(text: &[u8]) -> LineScan<'_>
    requires { length text.now ≤ most_bytes }
    ensures { result ≡ numbered 1 (lines_of text.now) }
{
    LineScan {
        rest: text,
        number: 1,
    }
}

impl<'a> Iterator for LineScan<'a> {
    ghost use Rattle.std.specs.Iterator.{item_count, YieldsFirstBy};
    ghost use Rattle.mps_fields.specs.LineViews.{line_view};

    type Item = TextLine<'a>;

    ghost next_gives = { YieldsFirstBy line_view (λ lines. lines) };

    ghost remaining = { item_count (λ lines. lines) };

    fn next(&mut self) -> Option<TextLine<'a>> {
        if self.rest.is_empty() {
            return None;
        }
        let (piece, rest) = cut_piece(self.rest);
        let line = TextLine {
            bytes: without_return(piece),
            number: self.number,
        };
        self.rest = rest;
        self.number += 1;
        Some(line)
    }
}

fn line_feed(text: &[u8]) -> Option<usize>
    ensures { result ≡ position (λ byte. byte == 10) text.now }
{
    text.iter().position(|byte| *byte == b'\n')
}

// How many bytes stand before the first line feed.
#[tactic(auto, using(crate::specs::FrontLaws::place_some, crate::specs::FrontLaws::place_none))]
fn piece_len(text: &[u8]) -> usize
    ensures len { result ≡ position_or_len (λ byte. byte == 10) text.now }
    ensures within { result ≤ length text.now }
{
    match line_feed(text) {
        Some(place) => place,
        None => text.len(),
    }
}

// The bytes before the first line feed, and those behind it.
#[tactic(auto, using(crate::proofs::LineLaws::first_piece, crate::proofs::LineLaws::last_piece))]
fn cut_piece(text: &[u8]) -> (&[u8], &[u8])
    requires { 0 < length text.now }
    ensures piece { pieces_of text.now ≡ result.0.now ∷ pieces_of result.1.now }
    ensures shorter { length result.1.now < length text.now }
{
    let (piece, rest) = text.split_at(piece_len(text));
    if rest.is_empty() {
        return (piece, rest);
    }
    let (_, rest) = rest.split_at(1);
    (piece, rest)
}

fn without_return(piece: &[u8]) -> &[u8]
    ensures { result.now ≡ unreturned piece.now }
{
    match piece {
        [front @ .., b'\r'] => front,
        _ => piece,
    }
}
