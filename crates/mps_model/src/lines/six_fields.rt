//! The six fields of a data line by their places.
ghost use Rattle.std.specs.Prelude.{◌≡◌, option_map, Some, None};
ghost use Rattle.mps_model.specs.SixFields.{six, row_places as row_rule, pair_places as pair_rule, column_places as column_rule, set_places as set_rule, value_places as value_rule, bare_places as bare_rule, marker_places as marker_rule};
ghost use Rattle.mps_model.specs.SixFieldViews.{text_of, texts_of, places_view, rule_of};

use mps_fields::Field;

/// Six fields by their places.
#[derive(Clone, Copy, Debug)]
pub(crate) struct SixFields<'a> {
    pub(crate) first: Option<&'a [u8]>,
    pub(crate) second: Option<&'a [u8]>,
    pub(crate) third: Option<&'a [u8]>,
    pub(crate) fourth: Option<&'a [u8]>,
    pub(crate) fifth: Option<&'a [u8]>,
    pub(crate) sixth: Option<&'a [u8]>,
}

impl<'a> SixFields<'a> {
    const NONE: SixFields<'static> = SixFields {
        first: None,
        second: None,
        third: None,
        fourth: None,
        fifth: None,
        sixth: None,
    };
}

/// What a line of free form is read as, which tells the places of its fields.
#[derive(Clone, Copy, Debug, PartialEq, Eq)]
pub(crate) enum Rule {
    Row,
    Marker,
    Column,
    Set,
    /// A bound with a value.
    Value,
    /// A bound without a value.
    Bare,
}

fn row_places<'a>(fields: &[Field<'a>]) -> Option<SixFields<'a>>
    ensures { places_view result ≡ row_rule (texts_of fields.now) }
{
    match fields {
        [kind, name] => Some(SixFields {
            first: Some(kind.text),
            second: Some(name.text),
            ..SixFields::NONE
        }),
        _ => None,
    }
}

fn pair_places<'a>(second: Option<&'a [u8]>, fields: &[Field<'a>]) -> Option<SixFields<'a>>
    ensures { places_view result ≡ pair_rule (option_map text_of second.entry) (texts_of fields.now) }
{
    match fields {
        [name, number] => Some(SixFields {
            second,
            third: Some(name.text),
            fourth: Some(number.text),
            ..SixFields::NONE
        }),
        [name, number, other, size] => Some(SixFields {
            second,
            third: Some(name.text),
            fourth: Some(number.text),
            fifth: Some(other.text),
            sixth: Some(size.text),
            ..SixFields::NONE
        }),
        _ => None,
    }
}

fn column_places<'a>(fields: &[Field<'a>]) -> Option<SixFields<'a>>
    ensures { places_view result ≡ column_rule (texts_of fields.now) }
{
    match fields {
        [column, pairs @ ..] => pair_places(Some(column.text), pairs),
        [] => None,
    }
}

fn set_places<'a>(fields: &[Field<'a>]) -> Option<SixFields<'a>>
    ensures { places_view result ≡ set_rule (texts_of fields.now) }
{
    match fields {
        [_, _] | [_, _, _, _] => pair_places(None, fields),
        [set, pairs @ ..] => pair_places(Some(set.text), pairs),
        [] => None,
    }
}

fn bound_places<'a>(
    kind: &'a [u8],
    set: Option<&'a [u8]>,
    column: &'a [u8],
    value: Option<&'a [u8]>,
) -> Option<SixFields<'a>>
    ensures { places_view result ≡ six (Some kind.now) (option_map text_of set.entry) (Some column.now) (option_map text_of value.entry) None None }
{
    Some(SixFields {
        first: Some(kind),
        second: set,
        third: Some(column),
        fourth: value,
        ..SixFields::NONE
    })
}

fn value_places<'a>(fields: &[Field<'a>]) -> Option<SixFields<'a>>
    ensures { places_view result ≡ value_rule (texts_of fields.now) }
{
    match fields {
        [kind, column, value] => bound_places(kind.text, None, column.text, Some(value.text)),
        [kind, set, column, value] => {
            bound_places(kind.text, Some(set.text), column.text, Some(value.text))
        }
        _ => None,
    }
}

fn bare_places<'a>(fields: &[Field<'a>]) -> Option<SixFields<'a>>
    ensures { places_view result ≡ bare_rule (texts_of fields.now) }
{
    match fields {
        [kind, column] => bound_places(kind.text, None, column.text, None),
        [kind, set, column] => bound_places(kind.text, Some(set.text), column.text, None),
        [kind, set, column, value] => {
            bound_places(kind.text, Some(set.text), column.text, Some(value.text))
        }
        _ => None,
    }
}

fn marker_places<'a>(fields: &[Field<'a>]) -> Option<SixFields<'a>>
    ensures { places_view result ≡ marker_rule (texts_of fields.now) }
{
    match fields {
        [name, mark, word] => Some(SixFields {
            second: Some(name.text),
            third: Some(mark.text),
            fifth: Some(word.text),
            ..SixFields::NONE
        }),
        _ => None,
    }
}

/// The places of a line's fields in free form, or `None` where their number does not fit.
pub(crate) fn free_places<'a>(rule: Rule, fields: &[Field<'a>]) -> Option<SixFields<'a>>
    ensures { places_view result ≡ rule_of rule (texts_of fields.now) }
{
    match rule {
        Rule::Row => row_places(fields),
        Rule::Marker => marker_places(fields),
        Rule::Column => column_places(fields),
        Rule::Set => set_places(fields),
        Rule::Value => value_places(fields),
        Rule::Bare => bare_places(fields),
    }
}
