//! The fields of a line in free form.
ghost use Rattle.std.specs.Prelude.{◌≡◌, ◌+◌, ◌<◌, ◌≤◌, ◌^◌, length, map, slice_get, Some, []};
ghost use Rattle.std.specs.List.{All};
ghost use Rattle.mps_fields.specs.FreeFields.{free_line, with_field};
ghost use Rattle.mps_fields.specs.FieldViews.{field_span};
ghost use Rattle.mps_fields.specs.LineViews.{line_view};
ghost use Rattle.mps_fields.specs.Lines.{most_bytes};

use crate::field::Field;
use crate::runs::cut_run;
use crate::text_lines::TextLine;
use std::marker::Model;

// How many fields are kept.
const MOST_FIELDS: usize = 6;

/// The first six fields of a line in free form, and the number of all.
#[derive(Debug, Drop)]
pub struct FreeFields<'a> {
    fields: [Field<'a>; MOST_FIELDS],
    count: usize,
    line: u32,
}

impl<'a> Model for FreeFields<'a> {
    ghost use Rattle.std.specs.Prelude.{map, take};
    ghost use Rattle.mps_fields.specs.FreeFields.{FreeLine};
    ghost use Rattle.mps_fields.specs.FieldViews.{field_span, AreSixOf};

    ghost Value = { FreeLine };

    ghost view = { λ s. record { fields = take s.count (map field_span s.fields); count = s.count; number = s.line } };

    ghost invariant = { λ s. AreSixOf s.line s.fields };
}

impl<'a> FreeFields<'a> {
    fn new(line: u32) -> FreeFields<'a>
        ensures { result ≡ record { fields = []; count = 0; number = line } }
    {
        let none = Field {
            text: &[],
            line,
            at: 0,
        };
        FreeFields {
            fields: [none; MOST_FIELDS],
            count: 0,
            line,
        }
    }

    fn add(&mut self, at: u32, text: &'a [u8])
        requires { self.old.count < most_bytes }
        ensures { self.new ≡ with_field self.old (record { at = at; text = text.now }) }
    {
        if self.count < MOST_FIELDS {
            self.fields[self.count] = Field {
                text,
                line: self.line,
                at,
            };
        }
        self.count += 1;
    }

    /// The number of all fields, also of those behind the sixth.
    pub fn count(&self) -> usize
        ensures { result ≡ self.now.count }
    {
        self.count
    }

    /// The field i, from 0.
    pub fn field(&self, i: usize) -> Field<'a>
        requires kept { i < 6 }
        requires there { i < self.now.count }
        ensures span { slice_get self.now.fields i ≡ Some (field_span result) }
        ensures line { result.line ≡ self.now.number }
    {
        self.fields[i]
    }

    /// The first six fields, in order.
    #[tactic(auto, using(crate::proofs::KeptFieldLaws::kept_all))]
    pub fn fields(&self) -> &[Field<'a>]
        ensures spans { map field_span result.now ≡ self.now.fields }
        ensures line { All (λ field. field.line ≡ self.now.number) result.now }
    {
        &self.fields[..self.count.min(MOST_FIELDS)]
    }
}

/// The fields of a line in free form, of which the first six are kept.
pub fn fields_free<'a>(line: &TextLine<'a>) -> FreeFields<'a>
    requires { length line.now.bytes.now ≤ most_bytes }
    ensures { result ≡ free_line (line_view line.now) }
{
    let mut found = FreeFields::new(line.number);
    let mut rest = line.bytes;
    let mut place = 0;
    while let Some(cut) = cut_run(rest, place) {
        found.add(cut.at, cut.text);
        rest = cut.rest;
        place = cut.end;
    }
    found
}
