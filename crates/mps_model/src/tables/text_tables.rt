//! What the data lines of a text said so far, section by section.
ghost use Rattle.std.specs.Prelude.{◌≡◌, ◌++◌, ◌∷◌, [], ℤ, List, Option, Some, true, option_map, OnOk};
ghost use Rattle.exact_math.specs.Rational.{whole};
ghost use Rattle.mps_fields.specs.Lines.{Line};
ghost use Rattle.mps_model.specs.declared.layout.Layout.{Layout as TheLayout};
ghost use Rattle.mps_model.specs.SectionOrder.{sections_in};
ghost use Rattle.mps_model.specs.Tables.{tables_of};
ghost use Rattle.mps_model.specs.StatedModel.{stated};
ghost use Rattle.mps_model.specs.Meaning.{unless_fault, first_column_fault};
ghost use Rattle.mps_model.specs.ReadAnswers.{Answers};
ghost use Rattle.mps_model.specs.KeptSectionOrder.{are_in_order};
ghost use Rattle.mps_model.specs.KeptSections.{IsSized, IsBuildable, KeepsSections, TakesLine};

use crate::fault::FaultKind;
use crate::line_stop::LineStop;
use crate::lines::data_fields::DataFields;
use crate::lines::section::Section;
use crate::model::column_judgement::first_fault;
use crate::model::model_building::build;
use crate::read_stop::ReadStop;
use crate::tables::bounds::BoundTable;
use crate::tables::columns::ColumnTable;
use crate::tables::rows::RowTable;
use crate::tables::sides::SideTable;
use frac128::Frac;
use int_model::Model;
use sequence::NoMemory;
use std::alloc::Global;

/// The rows, the columns from COLUMNS on, and what RHS, RANGES and BOUNDS say of them.
#[derive(Drop)]
pub(crate) struct TextTables<'a> {
    pub(crate) rows: RowTable,
    pub(crate) columns: Option<ColumnTable>,
    pub(crate) sides: SideTable<'a>,
    pub(crate) ranges: SideTable<'a>,
    pub(crate) bounds: BoundTable<'a>,
}

// A data line in a section that has no table.
const MISPLACED: LineStop = LineStop::Fault(FaultKind::Section);

impl<'a> TextTables<'a> {
    /// No lines. It takes no memory.
    pub(crate) fn new(alloc: Global) -> TextTables<'a>
        ensures { (layout : TheLayout) → KeepsSections [] (tables_of layout []) result }
    {
        TextTables {
            rows: RowTable::new(alloc),
            columns: None,
            sides: SideTable::new(alloc),
            ranges: SideTable::new(alloc),
            bounds: BoundTable::new(alloc),
        }
    }

    /// Begins a section.
    pub(crate) fn begin(&mut self, alloc: Global, section: Section) -> Result<(), NoMemory>
        ensures { (layout : TheLayout) (above : List Line) → are_in_order [] (sections_in above ++ section ∷ []) ≡ true
            → KeepsSections (sections_in above) (tables_of layout above) self.old
            → OnOk result (KeepsSections (sections_in above ++ section ∷ []) (tables_of layout above) self.new) }
    {
        if section == Section::Columns {
            self.columns = Some(ColumnTable::new(alloc, &self.rows)?);
        }
        Ok(())
    }

    /// Judges what a data line says in the last section, and takes it.
    pub(crate) fn take(
        &mut self,
        section: Option<Section>,
        fields: &DataFields<'a>,
    ) -> Result<(), LineStop>
        requires { IsSized self.old }
        ensures { TakesLine section fields.now self.old self.new result }
    {
        match section {
            Some(Section::Rows) => self.take_row(fields),
            Some(Section::Columns) => self.take_column(fields),
            Some(Section::Rhs) => self.take_side(fields),
            Some(Section::Ranges) => self.take_range(fields),
            Some(Section::Bounds) => self.take_bound(fields),
            Some(Section::Name | Section::Endata) | None => Err(MISPLACED),
        }
    }

    /// The model of the tables, or the fault of the first column that has one. A column whose upper bound the text does
    /// not give has the bound `given`, if there is one.
    pub(crate) fn into_model(self, alloc: Global, given: &Option<Frac>) -> Result<Model, ReadStop>
        requires { IsBuildable self }
        ensures { (layout : TheLayout) (above : List Line) (upper : Option ℤ) → KeepsSections (sections_in above) (tables_of layout above) self.entry
            → given.now ≡ option_map whole upper
            → Answers (unless_fault (stated upper (tables_of layout above)) (first_column_fault upper (tables_of layout above))) result }
    {
        let TextTables {
            rows,
            columns,
            sides,
            ranges,
            bounds,
        } = self;
        let columns = columns.unwrap();
        if let Some(fault) = first_fault(&columns.starts, &bounds, given) {
            return Err(ReadStop::Fault(fault));
        }
        Ok(build(alloc, rows, columns, &sides, &ranges, &bounds, given)?)
    }

    fn take_row(&mut self, fields: &DataFields<'a>) -> Result<(), LineStop>
        ensures { TakesLine (Some Section.Rows) fields.now self.old self.new result }
    {
        self.rows.add(fields.row())
    }

    fn take_column(&mut self, fields: &DataFields<'a>) -> Result<(), LineStop>
        requires { IsSized self.old }
        ensures { TakesLine (Some Section.Columns) fields.now self.old self.new result }
    {
        let Some(columns) = &mut self.columns else {
            return Err(MISPLACED);
        };
        if fields.is_marker() {
            columns.take_marker(fields.marker())
        } else {
            columns.take(&self.rows, fields.entries())
        }
    }

    fn take_side(&mut self, fields: &DataFields<'a>) -> Result<(), LineStop>
        ensures { TakesLine (Some Section.Rhs) fields.now self.old self.new result }
    {
        self.sides.add_sides(&self.rows, fields.set())
    }

    fn take_range(&mut self, fields: &DataFields<'a>) -> Result<(), LineStop>
        ensures { TakesLine (Some Section.Ranges) fields.now self.old self.new result }
    {
        self.ranges
            .add_ranges(&self.rows, &self.sides, fields.set())
    }

    fn take_bound(&mut self, fields: &DataFields<'a>) -> Result<(), LineStop>
        ensures { TakesLine (Some Section.Bounds) fields.now self.old self.new result }
    {
        let Some(columns) = &self.columns else {
            return Err(MISPLACED);
        };
        match fields.bound_kind() {
            Some(kind) => self.bounds.add(&columns.names, fields.bound(kind)),
            None => Err(LineStop::Fault(FaultKind::BoundKind)),
        }
    }
}
