//! What data lines say, in slices of the text.
ghost use Rattle.std.specs.Prelude.{◌≡◌, option_map};
ghost use Rattle.mps_model.specs.Tables.{row_said, column_said, set_said, marker_said, valued_said, bare_said};
ghost use Rattle.mps_model.specs.SixFieldViews.{text_of, fields_view};
ghost use Rattle.mps_model.specs.DataLineViews.{row_view, pair_line_view, bound_view, line_with};

use crate::lines::bound_kind::BoundKind;
use crate::lines::six_fields::SixFields;

/// The name of a row, and the text of a number.
#[derive(Clone, Copy, Debug)]
pub(crate) struct Pair<'a> {
    pub(crate) name: &'a [u8],
    pub(crate) number: &'a [u8],
}

/// A line with one or two pairs. The label is a column's name, or a set name, which is empty where it is absent.
#[derive(Clone, Copy, Debug)]
pub(crate) struct PairLine<'a> {
    pub(crate) at: u32,
    pub(crate) label: &'a [u8],
    pub(crate) first: Pair<'a>,
    pub(crate) second: Option<Pair<'a>>,
}

/// A line of ROWS: a kind, which may be any word, and a name.
#[derive(Clone, Copy, Debug)]
pub(crate) struct RowLine<'a> {
    pub(crate) kind: &'a [u8],
    pub(crate) name: &'a [u8],
}

/// A line of BOUNDS. The set name is empty where it is absent, and the value where the kind takes none.
#[derive(Clone, Copy, Debug)]
pub(crate) struct BoundLine<'a> {
    pub(crate) kind: BoundKind,
    pub(crate) set: &'a [u8],
    pub(crate) column: &'a [u8],
    pub(crate) value: &'a [u8],
}

impl<'a> RowLine<'a> {
    pub(crate) fn from_fields(fields: &SixFields<'a>) -> Option<RowLine<'a>>
        ensures { option_map row_view result ≡ row_said (fields_view fields.now) }
    {
        match fields {
            SixFields {
                first: Some(kind),
                second: Some(name),
                third: None,
                fourth: None,
                fifth: None,
                sixth: None,
            } => Some(RowLine { kind, name }),
            _ => None,
        }
    }
}

impl<'a> PairLine<'a> {
    fn with_label(at: u32, label: &'a [u8], fields: &SixFields<'a>) -> Option<PairLine<'a>>
        ensures { option_map pair_line_view result ≡ line_with at label.now (fields_view fields.now) }
    {
        match fields {
            SixFields {
                third: Some(name),
                fourth: Some(number),
                fifth: None,
                sixth: None,
                ..
            } => Some(PairLine {
                at,
                label,
                first: Pair { name, number },
                second: None,
            }),
            SixFields {
                third: Some(name),
                fourth: Some(number),
                fifth: Some(other),
                sixth: Some(size),
                ..
            } => Some(PairLine {
                at,
                label,
                first: Pair { name, number },
                second: Some(Pair {
                    name: other,
                    number: size,
                }),
            }),
            _ => None,
        }
    }

    pub(crate) fn from_column(at: u32, fields: &SixFields<'a>) -> Option<PairLine<'a>>
        ensures { option_map pair_line_view result ≡ column_said at (fields_view fields.now) }
    {
        match fields {
            SixFields {
                first: None,
                second: Some(column),
                ..
            } => PairLine::with_label(at, column, fields),
            _ => None,
        }
    }

    pub(crate) fn from_set(at: u32, fields: &SixFields<'a>) -> Option<PairLine<'a>>
        ensures { option_map pair_line_view result ≡ set_said at (fields_view fields.now) }
    {
        match fields {
            SixFields {
                first: None,
                second,
                ..
            } => PairLine::with_label(at, second.unwrap_or(&[]), fields),
            _ => None,
        }
    }
}

impl<'a> BoundLine<'a> {
    pub(crate) fn with_value(kind: BoundKind, fields: &SixFields<'a>) -> Option<BoundLine<'a>>
        ensures { option_map bound_view result ≡ valued_said kind (fields_view fields.now) }
    {
        match fields {
            SixFields {
                second,
                third: Some(column),
                fourth: Some(value),
                fifth: None,
                sixth: None,
                ..
            } => Some(BoundLine {
                kind,
                set: second.unwrap_or(&[]),
                column,
                value,
            }),
            _ => None,
        }
    }

    pub(crate) fn without_value(kind: BoundKind, fields: &SixFields<'a>) -> Option<BoundLine<'a>>
        ensures { option_map bound_view result ≡ bare_said kind (fields_view fields.now) }
    {
        match fields {
            SixFields {
                second,
                third: Some(column),
                fifth: None,
                sixth: None,
                ..
            } => Some(BoundLine {
                kind,
                set: second.unwrap_or(&[]),
                column,
                value: &[],
            }),
            _ => None,
        }
    }
}

/// The word of a marker line.
pub(crate) fn marker_word<'a>(fields: &SixFields<'a>) -> Option<&'a [u8]>
    ensures { option_map text_of result ≡ marker_said (fields_view fields.now) }
{
    match fields {
        SixFields {
            first: None,
            second: Some(_),
            third: Some(_),
            fourth: None,
            fifth: Some(word),
            sixth: None,
        } => Some(word),
        _ => None,
    }
}
