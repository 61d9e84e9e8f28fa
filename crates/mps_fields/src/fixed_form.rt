//! The fields of a line in fixed form, by its columns.
ghost use Rattle.std.specs.Prelude.{◌≡◌, ◌+◌, ◌-◌, ◌≤◌, ◌==◌, not, position, length, reverse, take, drop, slice_get, ◌↔◌, IsTrue, IsSome, IfSome, Some, option_map};
ghost use Rattle.std.specs.List.{list_all, prefix_len, suffix_len};
ghost use Rattle.mps_fields.specs.FixedFields.{is_space as space, columns as columns_of, without_end as ended, trimmed as trimmed_of, field_between as between, is_free_at as free_at, is_in_columns as in_columns, gaps, fixed_line};
ghost use Rattle.mps_fields.specs.FieldViews.{field_span};
ghost use Rattle.mps_fields.specs.LineViews.{line_view};

use crate::field::Field;
use crate::text_lines::TextLine;
use std::marker::Model;

const LAST_COLUMN: usize = 61;

// The columns between the fields.
const GAPS: [u8; 11] = [1, 4, 13, 14, 23, 24, 37, 38, 39, 48, 49];

fn is_space(byte: u8) -> bool
    ensures { result ≡ space byte }
{
    byte == b' '
}

// The first bytes of a line, and the others.
fn split_within(bytes: &[u8], at: usize) -> (&[u8], &[u8])
    ensures front { result.0.now ≡ take at bytes.now }
    ensures back { result.1.now ≡ drop at bytes.now }
{
    bytes.split_at(at.min(bytes.len()))
}

// The bytes from one column to another, where the line has them.
fn columns(line: &[u8], first: u8, last: u8) -> &[u8]
    ensures { result.now ≡ columns_of first last line.now }
{
    let before = usize::from(first).saturating_sub(1);
    let count = (usize::from(last) + 1).saturating_sub(usize::from(first));
    let (_, rest) = split_within(line, before);
    let (columns, _) = split_within(rest, count);
    columns
}

fn is_blank_run(bytes: &[u8]) -> bool
    ensures { result ≡ list_all space bytes.now }
{
    bytes.iter().all(|byte| is_space(*byte))
}

fn has_no_tab(bytes: &[u8]) -> bool
    ensures { result ≡ list_all (λ byte. not (byte == 9)) bytes.now }
{
    bytes.iter().all(|byte| *byte != b'\t')
}

fn is_free_at(line: &[u8], column: u8) -> bool
    ensures { result ≡ free_at line.now column }
{
    is_blank_run(columns(line, column, column))
}

fn are_gaps_free(line: &[u8]) -> bool
    ensures { result ≡ list_all (free_at line.now) gaps }
{
    GAPS.iter().all(|column| is_free_at(line, *column))
}

fn is_in_columns(line: &[u8]) -> bool
    ensures { result ≡ in_columns line.now }
{
    let (front, _) = split_within(line, LAST_COLUMN);
    has_no_tab(front) && are_gaps_free(line)
}

fn first_other(bytes: &[u8]) -> Option<usize>
    ensures { result ≡ position (λ byte. not (space byte)) bytes.now }
{
    bytes.iter().position(|byte| !is_space(*byte))
}

fn last_other(bytes: &[u8]) -> Option<usize>
    ensures { result ≡ position (λ byte. not (space byte)) (reverse bytes.now) }
{
    bytes.iter().rev().position(|byte| !is_space(*byte))
}

// How many blanks stand in front.
#[tactic(auto, using(crate::specs::FrontLaws::lead_some, crate::specs::FrontLaws::lead_none))]
fn lead_len(bytes: &[u8]) -> usize
    ensures len { result ≡ prefix_len space bytes.now }
    ensures within { result ≤ length bytes.now }
{
    match first_other(bytes) {
        Some(place) => place,
        None => bytes.len(),
    }
}

// How many blanks stand at the end.
#[tactic(auto, using(crate::specs::FrontLaws::tail_some, crate::specs::FrontLaws::tail_none))]
fn tail_len(bytes: &[u8]) -> usize
    ensures len { result ≡ suffix_len space bytes.now }
    ensures within { result ≤ length bytes.now }
{
    match last_other(bytes) {
        Some(place) => place,
        None => bytes.len(),
    }
}

fn without_end(bytes: &[u8]) -> &[u8]
    ensures { result.now ≡ ended bytes.now }
{
    let (front, _) = split_within(bytes, bytes.len() - tail_len(bytes));
    front
}

// The field of these columns, which begin behind so many bytes of the line.
fn trimmed<'a>(columns: &'a [u8], before: u8, line: u32) -> Option<Field<'a>>
    requires { length columns.now ≤ 256 }
    ensures span { option_map field_span result ≡ trimmed_of before columns.now }
    ensures line { IfSome result (λ field. field.line ≡ line) }
{
    if is_blank_run(columns) {
        return None;
    }
    let lead = lead_len(columns);
    let (_, rest) = split_within(columns, lead);
    Some(Field {
        text: without_end(rest),
        line,
        at: u32::from(before) + lead as u32,
    })
}

fn field_between<'a>(line: &TextLine<'a>, first: u8, last: u8) -> Option<Field<'a>>
    requires { 1 ≤ first }
    ensures span { option_map field_span result ≡ between first last line.now.bytes.now }
    ensures line { IfSome result (λ field. field.line ≡ line.now.number) }
{
    trimmed(columns(line.bytes, first, last), first - 1, line.number)
}

/// The fields of a line in fixed form, which are six.
#[derive(Debug, Drop)]
pub struct FixedFields<'a> {
    line: TextLine<'a>,
}

impl<'a> Model for FixedFields<'a> {
    ghost use Rattle.mps_fields.specs.FixedFields.{FixedLine, fixed_fields};

    ghost Value = { FixedLine };

    ghost view = { λ s. record { fields = fixed_fields s.line.bytes.now; number = s.line.number } };
}

impl<'a> FixedFields<'a> {
    /// The field i, of 1 to 6, where it is there.
    pub fn field(&self, i: usize) -> Option<Field<'a>>
        requires low { 1 ≤ i }
        requires high { i ≤ 6 }
        ensures span { slice_get self.now.fields (i - 1) ≡ Some (option_map field_span result) }
        ensures line { IfSome result (λ field. field.line ≡ self.now.number) }
    {
        match i {
            1 => field_between(&self.line, 2, 3),
            2 => field_between(&self.line, 5, 12),
            3 => field_between(&self.line, 15, 22),
            4 => field_between(&self.line, 25, 36),
            5 => field_between(&self.line, 40, 47),
            _ => field_between(&self.line, 50, 61),
        }
    }
}

/// The fields of a line by its columns, or `None` where the line is out of them: it has a tab up to column 61, or
/// another byte than a blank between the fields.
pub fn fields_fixed<'a>(line: &TextLine<'a>) -> Option<FixedFields<'a>>
    ensures in_columns { IsSome result ↔ IsTrue (in_columns line.now.bytes.now) }
    ensures fields { IfSome result (λ found. found ≡ fixed_line (line_view line.now)) }
{
    if is_in_columns(line.bytes) {
        Some(FixedFields { line: *line })
    } else {
        None
    }
}
