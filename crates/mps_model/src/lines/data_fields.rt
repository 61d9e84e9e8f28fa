//! The fields of a data line, cut once.
ghost use Rattle.std.specs.Prelude.{◌≡◌, ◌≤◌, length, is_some, IfSome, IsTrue, option_map, bytes_eq, codes};
ghost use Rattle.mps_fields.specs.Lines.{is_data_line, most_bytes};
ghost use Rattle.mps_fields.specs.FixedFields.{is_in_columns};
ghost use Rattle.mps_fields.specs.LineViews.{line_view};
ghost use Rattle.mps_model.specs.SixFields.{fixed_texts, places as places_at, kind_text, mark_text};
ghost use Rattle.mps_model.specs.Tables.{is_marker as marker_line, row_at, marker_at, entries_at, set_at, bound_kind_at, bound_with};
ghost use Rattle.mps_model.specs.LineFaults.{keeps_columns};
ghost use Rattle.mps_model.specs.SixFieldViews.{text_of, fields_view, places_view, rule_of};
ghost use Rattle.mps_model.specs.DataLineViews.{row_view, pair_line_view, bound_view};
ghost use Rattle.mps_model.specs.FieldCuts.{IsCutOf, Cuts, Says};

use crate::layout::Layout;
use crate::lines::bound_kind::BoundKind;
use crate::lines::data_line::{BoundLine, PairLine, RowLine, marker_word};
use crate::lines::six_fields::{Rule, SixFields, free_places};
use mps_fields::{Field, FreeFields, TextLine, fields_fixed, fields_free};

/// The fields as the layout cuts them.
#[derive(Debug, Drop)]
pub(crate) enum Cut<'a> {
    Free(FreeFields<'a>),
    Fixed(SixFields<'a>),
}

/// The fields of the data line with this number.
#[derive(Debug, Drop)]
pub(crate) struct DataFields<'a> {
    pub(crate) line: u32,
    pub(crate) cut: Cut<'a>,
}

fn is_mark(word: &[u8]) -> bool
    ensures { result ≡ bytes_eq (codes "'MARKER'") word.now }
{
    b"'MARKER'".as_slice() == word
}

fn text<'a>(field: Option<Field<'a>>) -> Option<&'a [u8]>
    ensures { option_map text_of result ≡ option_map (λ field. field.text.now) field.entry }
{
    field.map(|field| field.text)
}

// The fields of a line by its columns, where it keeps to them.
fn fixed_places<'a>(line: &TextLine<'a>) -> Option<SixFields<'a>>
    ensures columns { is_some result ≡ is_in_columns line.now.bytes.now }
    ensures fields { IfSome result (λ p. fields_view p ≡ fixed_texts line.now.bytes.now) }
{
    let fields = fields_fixed(line)?;
    Some(SixFields {
        first: text(fields.field(1)),
        second: text(fields.field(2)),
        third: text(fields.field(3)),
        fourth: text(fields.field(4)),
        fifth: text(fields.field(5)),
        sixth: text(fields.field(6)),
    })
}

fn cut_line<'a>(layout: Layout, line: &TextLine<'a>) -> Option<Cut<'a>>
    requires { length line.now.bytes.now ≤ most_bytes }
    ensures columns { IsTrue (is_data_line line.now.bytes.now) → is_some result ≡ keeps_columns layout line.now.bytes.now }
    ensures cut { IfSome result (IsCutOf layout (line_view line.now)) }
{
    match layout {
        Layout::Free => Some(Cut::Free(fields_free(line))),
        Layout::Fixed => fixed_places(line).map(Cut::Fixed),
    }
}

impl<'a> DataFields<'a> {
    /// The fields of a data line, or `None` where it is out of its columns.
    pub(crate) fn cut(layout: Layout, line: &TextLine<'a>) -> Option<DataFields<'a>>
        requires { length line.now.bytes.now ≤ most_bytes }
        ensures columns { IsTrue (is_data_line line.now.bytes.now) → is_some result ≡ keeps_columns layout line.now.bytes.now }
        ensures cuts { IfSome result (Cuts layout (line_view line.now)) }
    {
        let cut = cut_line(layout, line)?;
        Some(DataFields {
            line: line.number,
            cut,
        })
    }

    fn places(&self, rule: Rule) -> Option<SixFields<'a>>
        ensures { Says self.now (places_view result) (λ layout line. places_at layout (rule_of rule) line.bytes) }
    {
        match &self.cut {
            Cut::Free(fields) => free_places(rule, fields.fields()),
            Cut::Fixed(fields) => Some(*fields),
        }
    }

    // The field that tells a bound's kind.
    fn kind_word(&self) -> Option<&'a [u8]>
        ensures { Says self.now (option_map text_of result) (λ layout line. kind_text layout line.bytes) }
    {
        match &self.cut {
            Cut::Free(fields) => fields.fields().first().map(|field| field.text),
            Cut::Fixed(fields) => fields.first,
        }
    }

    // The field that tells a marker.
    fn mark(&self) -> Option<&'a [u8]>
        ensures { Says self.now (option_map text_of result) (λ layout line. mark_text layout line.bytes) }
    {
        match &self.cut {
            Cut::Free(fields) => fields.fields().get(1).map(|field| field.text),
            Cut::Fixed(fields) => fields.third,
        }
    }

    /// What a line of ROWS says.
    pub(crate) fn row(&self) -> Option<RowLine<'a>>
        ensures { Says self.now (option_map row_view result) row_at }
    {
        RowLine::from_fields(&self.places(Rule::Row)?)
    }

    /// A line of COLUMNS is a marker.
    pub(crate) fn is_marker(&self) -> bool
        ensures { Says self.now result (λ layout line. marker_line layout line.bytes) }
    {
        self.mark().is_some_and(is_mark)
    }

    /// The word of a marker line.
    pub(crate) fn marker(&self) -> Option<&'a [u8]>
        ensures { Says self.now (option_map text_of result) marker_at }
    {
        marker_word(&self.places(Rule::Marker)?)
    }

    /// What another line of COLUMNS says.
    pub(crate) fn entries(&self) -> Option<PairLine<'a>>
        ensures { Says self.now (option_map pair_line_view result) entries_at }
    {
        PairLine::from_column(self.line, &self.places(Rule::Column)?)
    }

    /// What a line of RHS or RANGES says.
    pub(crate) fn set(&self) -> Option<PairLine<'a>>
        ensures { Says self.now (option_map pair_line_view result) set_at }
    {
        PairLine::from_set(self.line, &self.places(Rule::Set)?)
    }

    /// The kind of a line of BOUNDS.
    pub(crate) fn bound_kind(&self) -> Option<BoundKind>
        ensures { Says self.now result bound_kind_at }
    {
        BoundKind::from_word(self.kind_word()?)
    }

    /// What a line of BOUNDS of this kind says.
    pub(crate) fn bound(&self, kind: BoundKind) -> Option<BoundLine<'a>>
        ensures { Says self.now (option_map bound_view result) (λ layout line. bound_with layout line kind) }
    {
        if kind.takes_value() {
            BoundLine::with_value(kind, &self.places(Rule::Value)?)
        } else {
            BoundLine::without_value(kind, &self.places(Rule::Bare)?)
        }
    }
}
