//! The bounds of the columns, from the lines of BOUNDS.
ghost use Rattle.std.specs.Prelude.{◌≡◌, ℕ, ◌<◌, List, [], length, slice_index_or, ◌++◌, Some, None, Ok, option_map, unwrap_or, IsTrue, IfOk, IfErr, IsErrAnd};
ghost use Rattle.std.specs.Bool.{OnTrue};
ghost use Rattle.std.specs.Option.{option_to_list, option_copied, option_or};
ghost use Rattle.mps_fields.specs.Reading.{number_of};
ghost use Rattle.mps_model.specs.declared.line_stop.LineStop.TheVariants.{Fault as stop_at};
ghost use Rattle.mps_model.specs.Tables.{Tables, BoundLine as StatedBound, takes_value as value_is_taken};
ghost use Rattle.mps_model.specs.Sides.{zero_ℚ};
ghost use Rattle.mps_model.specs.Bounds.{column_names};
ghost use Rattle.mps_model.specs.PairFaults.{is_second_set};
ghost use Rattle.mps_model.specs.ColumnFaults.{bound_line_fault};
ghost use Rattle.mps_model.specs.DataLineViews.{bound_view};
ghost use Rattle.mps_model.specs.Judging.{Judges, kind_of};
ghost use Rattle.mps_model.specs.KeptBounds.{said_of, nothing_said, with_entry, KeepsBounds};

use crate::fault::FaultKind;
use crate::line_stop::LineStop;
use crate::lines::bound_kind::BoundKind;
use crate::lines::data_line::BoundLine;
use crate::tables::names::Names;
use frac128::Frac;
use mps_fields::number;
use std::alloc::Global;

/// What the entries of one column say: of each side, what the last entry that sets it says, which is no bound at all
/// or a number; and whether one of them makes the column integer.
#[derive(Clone, Copy, Debug)]
pub(crate) struct ColumnBounds {
    pub(crate) lower: Option<Option<Frac>>,
    pub(crate) upper: Option<Option<Frac>>,
    pub(crate) is_integer: bool,
}

impl ColumnBounds {
    /// The bounds of a column without an entry.
    pub(crate) fn unset() -> ColumnBounds
        ensures { result ≡ nothing_said }
    {
        ColumnBounds {
            lower: None,
            upper: None,
            is_integer: false,
        }
    }

    /// The lower side, which is 0 where no entry sets it.
    pub(crate) fn lower_side(&self) -> Option<Frac>
        ensures { result ≡ unwrap_or self.now.lower (Some zero_ℚ) }
    {
        self.lower.unwrap_or(Some(Frac::whole(0)))
    }

    /// The upper side, which is the bound handed in where the entries give none.
    pub(crate) fn upper_side(&self, given: &Option<Frac>) -> Option<Frac>
        ensures { result ≡ option_or (unwrap_or self.now.upper None) given.now }
    {
        self.upper.flatten().or(*given)
    }

    // Takes one more entry.
    fn add(&mut self, kind: BoundKind, value: Frac)
        ensures { self.new ≡ with_entry self.old kind value }
    {
        self.lower = kind.lower_side(value).or(self.lower);
        self.upper = kind.upper_side(value).or(self.upper);
        self.is_integer |= kind.makes_integer();
    }
}

// The value of an entry, or 0 where its kind takes none.
fn entry_value(kind: BoundKind, text: &[u8]) -> Result<Frac, LineStop>
    ensures value { IfOk result (λ value. OnTrue (value_is_taken kind) (number_of text.now ≡ Ok value)) }
    ensures fault { IfErr result (λ stop. IsTrue (value_is_taken kind) × IsErrAnd (number_of text.now) (λ fault. stop ≡ stop_at (kind_of fault))) }
{
    if !kind.takes_value() {
        return Ok(Frac::whole(0));
    }
    Ok(number(text)?)
}

/// What the lines of BOUNDS so far say of each column, and the set name of the first of them.
#[derive(Drop)]
pub(crate) struct BoundTable<'a> {
    set: Option<&'a [u8]>,
    // As long as the columns from the first line on.
    columns: Vec<ColumnBounds>,
}

impl<'a> BoundTable<'a> {
    /// The table of no lines. It takes no memory.
    pub(crate) fn new(alloc: Global) -> Self
        ensures { (names : List (List ℕ)) → KeepsBounds names [] result }
    {
        BoundTable {
            set: None,
            columns: Vec::new(alloc),
        }
    }

    // Whether the set name differs from that of the first line.
    fn is_second_set(&self, set: &[u8]) -> bool
        ensures { result ≡ is_second_set (option_copied self.now.set) set.now }
    {
        self.set.is_some_and(|first| first != set)
    }

    /// Judges a line of BOUNDS, and takes it. The names are those of the columns.
    pub(crate) fn add(&mut self, names: &Names, line: Option<BoundLine<'a>>) -> Result<(), LineStop>
        ensures { (above : Tables) → names.now ≡ column_names above.columns → KeepsBounds names.now above.bounds self.old
            → Judges (bound_line_fault above (option_map bound_view line.entry))
            (KeepsBounds names.now (above.bounds ++ option_to_list (option_map bound_view line.entry)) self.new) result }
    {
        let Some(line) = line else {
            return Err(LineStop::Fault(FaultKind::FieldCount));
        };
        if self.is_second_set(line.set) {
            return Err(LineStop::Fault(FaultKind::SecondSet));
        }
        let Some(column) = names.find(line.column) else {
            return Err(LineStop::Fault(FaultKind::UnknownColumn));
        };
        let value = entry_value(line.kind, line.value)?;
        self.columns.resize(names.len(), ColumnBounds::unset())?;
        self.columns[column].add(line.kind, value);
        self.set = self.set.or(Some(line.set));
        Ok(())
    }

    /// What the lines say of a column by its number, from 0.
    pub(crate) fn of(&self, column: usize) -> ColumnBounds
        ensures { (names : List (List ℕ)) (lines : List StatedBound) → KeepsBounds names lines self.now → column < length names
            → result ≡ said_of lines (slice_index_or names column []) }
    {
        self.columns
            .get(column)
            .copied()
            .unwrap_or(ColumnBounds::unset())
    }
}
