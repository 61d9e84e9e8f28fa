//! The lines of a text, one by one.
ghost use Rattle.std.specs.Prelude.{◌≡◌, ◌≤◌, ◌∷◌, [], ◌++◌, ℤ, List, Option, true, false, length, option_map};
ghost use Rattle.std.specs.Option.{option_map_or};
ghost use Rattle.exact_math.specs.Rational.{whole};
ghost use Rattle.mps_fields.specs.Lines.{Line, is_section_line as begins_section};
ghost use Rattle.mps_fields.specs.LineViews.{line_view};
ghost use Rattle.mps_model.specs.declared.layout.Layout.{Layout as TheLayout};
ghost use Rattle.mps_model.specs.Sections.{is_content as content_line};
ghost use Rattle.mps_model.specs.SectionOrder.{is_same};
ghost use Rattle.mps_model.specs.Tables.{tables_of};
ghost use Rattle.mps_model.specs.StatedModel.{stated};
ghost use Rattle.mps_model.specs.Meaning.{unless_fault, first_column_fault};
ghost use Rattle.mps_model.specs.ReadAnswers.{Answers};
ghost use Rattle.mps_model.specs.LineFaults.{section_fault, line_fault};
ghost use Rattle.mps_model.specs.Judging.{Judges};
ghost use Rattle.mps_model.specs.KeptSections.{IsSized, IsBuildable};
ghost use Rattle.mps_model.specs.KeptLines.{Keeps};

use crate::fault::FaultKind;
use crate::layout::Layout;
use crate::line_stop::LineStop;
use crate::lines::data_fields::DataFields;
use crate::lines::line_kind::{is_allowed, is_content, is_section_line};
use crate::lines::section::Section;
use crate::lines::section_line::section_line;
use crate::lines::section_order::Order;
use crate::read_stop::ReadStop;
use crate::tables::text_tables::TextTables;
use frac128::Frac;
use int_model::Model;
use mps_fields::TextLine;
use std::alloc::Global;

// How many bytes a line may have.
const MOST_BYTES: usize = 1024;

/// What the lines so far said.
#[derive(Drop)]
pub(crate) struct Reader<'a> {
    alloc: Global,
    order: Order,
    tables: TextTables<'a>,
}

impl<'a> Reader<'a> {
    /// Before the first line.
    pub(crate) fn new(alloc: Global) -> Reader<'a>
        ensures { (layout : TheLayout) → Keeps layout [] result }
    {
        Reader {
            alloc,
            order: Order::new(),
            tables: TextTables::new(alloc),
        }
    }

    /// ENDATA came.
    pub(crate) fn is_ended(&self) -> bool
        ensures { result ≡ option_map_or (is_same Section.Endata) self.now.order.last false }
    {
        matches!(self.order.last, Some(Section::Endata))
    }

    /// Judges a line, and takes it.
    pub(crate) fn take(&mut self, layout: Layout, line: &TextLine<'a>) -> Result<(), LineStop>
        requires { IsSized self.old.tables }
        ensures { (above : List Line) → Keeps layout above self.old
            → Judges (line_fault layout above (line_view line.now)) (Keeps layout (above ++ line_view line.now ∷ []) self.new) result }
    {
        if line.bytes.len() > MOST_BYTES {
            return Err(LineStop::Fault(FaultKind::LongLine));
        }
        if !is_content(line) {
            return Ok(());
        }
        if !is_allowed(line.bytes) {
            return Err(LineStop::Fault(FaultKind::Byte));
        }
        if is_section_line(line.bytes) {
            return self.begin(line);
        }
        match DataFields::cut(layout, line) {
            Some(fields) => self.tables.take(self.order.last, &fields),
            None => Err(LineStop::Fault(FaultKind::Byte)),
        }
    }

    // Judges a section line, and begins its section.
    fn begin(&mut self, line: &TextLine) -> Result<(), LineStop>
        requires { length line.now.bytes.now ≤ 1024 }
        ensures { (layout : TheLayout) (above : List Line) → begins_section line.now.bytes.now ≡ true
            → line_fault layout above (line_view line.now) ≡ section_fault above (line_view line.now) → Keeps layout above self.old
            → Judges (line_fault layout above (line_view line.now)) (Keeps layout (above ++ line_view line.now ∷ []) self.new) result }
    {
        let Some(said) = section_line(line) else {
            return Err(LineStop::Fault(FaultKind::Section));
        };
        let Some(order) = self.order.next(said.section) else {
            return Err(LineStop::Fault(FaultKind::Section));
        };
        if said.has_more_fields {
            return Err(LineStop::Fault(FaultKind::FieldCount));
        }
        self.tables.begin(self.alloc, said.section)?;
        self.order = order;
        Ok(())
    }

    /// The model that the lines state, or the fault of the first column that has one. A column whose upper bound they do
    /// not give has the bound `given`, if there is one.
    pub(crate) fn into_model(self, given: &Option<Frac>) -> Result<Model, ReadStop>
        requires { IsBuildable self.tables }
        ensures { (layout : TheLayout) (above : List Line) (upper : Option ℤ) → Keeps layout above self.entry → given.now ≡ option_map whole upper
            → Answers (unless_fault (stated upper (tables_of layout above)) (first_column_fault upper (tables_of layout above))) result }
    {
        let Reader {
            alloc,
            order: _,
            tables,
        } = self;
        tables.into_model(alloc, given)
    }
}
