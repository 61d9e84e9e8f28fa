//! The right sides and the ranges of rows, from the lines of RHS and RANGES.
ghost use Rattle.std.specs.Prelude.{◌≡◌, ◌<◌, ◌≤◌, ◌++◌, ◌∷◌, [], ℕ, List, None, Some, length, map, position, slice_get, slice_set, is_some, unwrap_or, if◌then◌else◌, option_map, IfSome, IsSomeAnd, IfOk};
ghost use Rattle.std.specs.Option.{option_or, option_to_list, option_copied};
ghost use Rattle.mps_model.specs.declared.fault.FaultKind.TheVariants as faults;
ghost use Rattle.mps_model.specs.Tables.{Tables, RowLine as RowSaid, PairLine as PairsSaid, Pair as PairSaid};
ghost use Rattle.mps_model.specs.Sides.{zero_ℚ, number_beside, is_free_row, objective_row, sides_of as stated_sides, constant_of as stated_constant};
ghost use Rattle.mps_model.specs.RowFaults.{row_names};
ghost use Rattle.mps_model.specs.RowKinds.{letter_of};
ghost use Rattle.mps_model.specs.PairFaults.{pair_fault, range_fault, set_fault};
ghost use Rattle.mps_model.specs.DataLineViews.{pair_view, pair_line_view};
ghost use Rattle.mps_model.specs.Judging.{Judges};
ghost use Rattle.mps_model.specs.KeptSides.{opening_fault, number_in, names_in, padded, sides_view, end_in, KeepsPairs, KeepsRanges};

use crate::fault::FaultKind;
use crate::line_stop::LineStop;
use crate::lines::data_line::{Pair, PairLine};
use crate::model::row_sides::RowSides;
use crate::tables::row_kind::RowKind;
use crate::tables::rows::RowTable;
use frac128::Frac;
use mps_fields::number;
use std::alloc::Global;

/// The numbers that RHS or RANGES gives to the rows, by their places, and the set name of the first line. RHS gives a row
/// its right side, RANGES the end to which its range goes from there.
#[derive(Drop)]
pub(crate) struct SideTable<'a> {
    pub(crate) set: Option<&'a [u8]>,
    // Empty before the first line, and from there on as long as the row table.
    pub(crate) numbers: Vec<Option<Frac>>,
}

impl<'a> SideTable<'a> {
    /// The table before the section. It takes no memory.
    pub(crate) fn new(alloc: Global) -> SideTable<'a>
        ensures pairs { (names : List (List ℕ)) → KeepsPairs names [] result }
        ensures ranges { (rows : List RowSaid) (sides : List PairsSaid) → KeepsRanges rows sides [] result }
    {
        SideTable {
            set: None,
            numbers: Vec::new(alloc),
        }
    }

    // Takes the set name of a line, and makes room for a number of each row at the first line.
    fn open(&mut self, rows: usize, line: Option<PairLine<'a>>) -> Result<PairLine<'a>, LineStop>
        ensures line { IfOk result (λ said. line.entry ≡ Some said) }
        ensures judged { Judges (opening_fault (option_copied self.old.set) (option_map pair_line_view line.entry))
            (self.new.numbers.items ≡ padded rows self.old.numbers.items) result }
        ensures set { IfOk result (λ said. self.new.set ≡ option_or self.old.set (Some said.label)) }
    {
        let Some(line) = line else {
            return Err(LineStop::Fault(FaultKind::FieldCount));
        };
        if self.set.is_some_and(|first| first != line.label) {
            return Err(LineStop::Fault(FaultKind::SecondSet));
        }
        self.set = self.set.or(Some(line.label));
        if self.numbers.len() < rows {
            self.numbers.resize(rows, None)?;
        }
        Ok(line)
    }

    // Puts the number of a row that has none yet.
    fn put(&mut self, row: usize, number: Frac) -> Result<(), LineStop>
        requires { row < length self.old.numbers.items }
        ensures judged { Judges (if is_some (number_in self.old.numbers.items row) then Some faults.Duplicate else None)
            (self.new.numbers.items ≡ slice_set self.old.numbers.items row (Some number)) result }
        ensures set { self.new.set ≡ self.old.set }
        ensures len { length self.new.numbers.items ≡ length self.old.numbers.items }
    {
        if self.numbers[row].is_some() {
            return Err(LineStop::Fault(FaultKind::Duplicate));
        }
        self.numbers[row] = Some(number);
        Ok(())
    }

    /// The number of a row, if it has one.
    pub(crate) fn number(&self, row: usize) -> Option<Frac>
        ensures { result ≡ number_in self.now.numbers.items row }
    {
        self.numbers.get(row).copied().flatten()
    }

    /// The number of a row, which is 0 where it has none.
    pub(crate) fn number_or_zero(&self, row: usize) -> Frac
        ensures { result ≡ unwrap_or (number_in self.now.numbers.items row) zero_ℚ }
    {
        self.number(row).unwrap_or(Frac::whole(0))
    }

    // Judges a pair of RHS, and takes its number.
    fn add_side(&mut self, rows: &RowTable, pair: Pair) -> Result<(), LineStop>
        requires { length rows.now ≤ length self.old.numbers.items }
        ensures judged { (pairs : List PairSaid) → self.old.numbers.items ≡ map (number_beside pairs) (row_names rows.now)
            → Judges (pair_fault rows.now (names_in pairs) (pair_view pair.entry))
            (self.new.numbers.items ≡ map (number_beside (pairs ++ pair_view pair.entry ∷ [])) (row_names rows.now)) result }
        ensures set { self.new.set ≡ self.old.set }
        ensures len { length self.new.numbers.items ≡ length self.old.numbers.items }
    {
        let Some(row) = rows.find(pair.name) else {
            return Err(LineStop::Fault(FaultKind::UnknownRow));
        };
        let number = number(pair.number)?;
        self.put(row, number)
    }

    /// Judges what a line of RHS says, and takes its numbers.
    pub(crate) fn add_sides(
        &mut self,
        rows: &RowTable,
        line: Option<PairLine<'a>>,
    ) -> Result<(), LineStop>
        ensures { (lines : List PairsSaid) → KeepsPairs (row_names rows.now) lines self.old
            → Judges (set_fault (pair_fault rows.now) lines (option_map pair_line_view line.entry))
            (KeepsPairs (row_names rows.now) (lines ++ option_to_list (option_map pair_line_view line.entry)) self.new) result }
    {
        let line = self.open(rows.len(), line)?;
        self.add_side(rows, line.first)?;
        match line.second {
            Some(pair) => self.add_side(rows, pair),
            None => Ok(()),
        }
    }

    // Judges a pair of RANGES, and takes the end of its range.
    fn add_range(&mut self, rows: &RowTable, sides: &SideTable, pair: Pair) -> Result<(), LineStop>
        requires { length rows.now ≤ length self.old.numbers.items }
        ensures judged { (above : Tables) (pairs : List PairSaid) → above.rows ≡ rows.now → KeepsPairs (row_names rows.now) above.sides sides.now
            → self.old.numbers.items ≡ map (end_in above.sides pairs) rows.now
            → Judges (range_fault above (names_in pairs) (pair_view pair.entry))
            (self.new.numbers.items ≡ map (end_in above.sides (pairs ++ pair_view pair.entry ∷ [])) rows.now) result }
        ensures set { self.new.set ≡ self.old.set }
        ensures len { length self.new.numbers.items ≡ length self.old.numbers.items }
    {
        let Some(row) = rows.find(pair.name) else {
            return Err(LineStop::Fault(FaultKind::UnknownRow));
        };
        let kind = rows.kind(row);
        if !kind.has_sides() {
            return Err(LineStop::Fault(FaultKind::RangeOnObjective));
        }
        let range = number(pair.number)?;
        let side = sides.number_or_zero(row);
        let Ok(end) = side.add(&kind.range_step(range)) else {
            return Err(LineStop::Fault(FaultKind::WideNumber));
        };
        self.put(row, end)
    }

    /// Judges what a line of RANGES says, beside the right sides of the rows, and takes the ends of its ranges.
    pub(crate) fn add_ranges(
        &mut self,
        rows: &RowTable,
        sides: &SideTable,
        line: Option<PairLine<'a>>,
    ) -> Result<(), LineStop>
        ensures { (above : Tables) → above.rows ≡ rows.now → KeepsPairs (row_names above.rows) above.sides sides.now
            → KeepsRanges above.rows above.sides above.ranges self.old
            → Judges (set_fault (range_fault above) above.ranges (option_map pair_line_view line.entry))
            (KeepsRanges above.rows above.sides (above.ranges ++ option_to_list (option_map pair_line_view line.entry)) self.new) result }
    {
        let line = self.open(rows.len(), line)?;
        self.add_range(rows, sides, line.first)?;
        match line.second {
            Some(pair) => self.add_range(rows, sides, pair),
            None => Ok(()),
        }
    }
}

/// The constant of the objective, which stands at this place: minus its number in RHS.
pub(crate) fn constant_of(objective: Option<usize>, sides: &SideTable) -> Frac
    ensures { (tables : Tables) → objective ≡ position is_free_row tables.rows → KeepsPairs (row_names tables.rows) tables.sides sides.now
        → result ≡ stated_constant tables (objective_row tables.rows) }
{
    match objective {
        Some(row) => sides.number_or_zero(row).neg(),
        None => Frac::whole(0),
    }
}
