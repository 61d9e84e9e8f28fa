//! The columns of a text: its section COLUMNS.
ghost use Rattle.std.specs.Prelude.{◌≡◌, ◌≤◌, [], ◌∷◌, ◌++◌, ℕ, List, length, option_map, option_to_list, false, IfOk};
ghost use Rattle.std.specs.Option.{option_copied};

use crate::fault::FaultKind;
use crate::line_stop::LineStop;
use crate::lines::data_line::PairLine;
use crate::tables::factors::FactorTable;
use crate::tables::names::Names;
use crate::tables::rows::RowTable;
use sequence::NoMemory;
use std::alloc::Global;

// How many columns a text may have.
const MOST_COLUMNS: usize = 256;

/// Where a column begins.
#[derive(Clone, Copy, Debug)]
pub(crate) struct ColumnStart {
    /// The number of its first line.
    pub(crate) line: u32,
    /// Markers are open there.
    pub(crate) is_between: bool,
}

/// The columns so far, each where it begins, and the factors that the rows have in them.
#[derive(Drop)]
pub(crate) struct ColumnTable {
    pub(crate) names: Names,
    pub(crate) starts: Vec<ColumnStart>,
    // Markers are open.
    is_open: bool,
    // The line before is one of the last column.
    goes_on: bool,
    pub(crate) factors: FactorTable,
    ghost few: { length names ≤ 256 },
}

impl ColumnTable {
    ghost use Rattle.mps_model.specs.FaultRules.{is_among};
    ghost use Rattle.mps_model.specs.Tables.{RowLine, ColumnLine, Tables, marker, entries};
    ghost use Rattle.mps_model.specs.DataLineViews.{pair_line_view};
    ghost use Rattle.mps_model.specs.ColumnFaults.{marker_fault, column_fault};
    ghost use Rattle.mps_model.specs.ColumnTables.{bare_line, label_fault, IsLastColumn};
    ghost use Rattle.mps_model.specs.KeptColumns.{KeepsColumns};
    ghost use Rattle.mps_model.specs.Judging.{Judges};

    /// No columns, and these rows.
    pub(crate) fn new(alloc: Global, rows: &RowTable) -> Result<ColumnTable, NoMemory>
        ensures { IfOk result (λ table. KeepsColumns rows.now [] table) }
    {
        Ok(ColumnTable {
            names: Names::new(alloc),
            starts: Vec::new(alloc),
            is_open: false,
            goes_on: false,
            factors: FactorTable::new(alloc, rows)?,
        })
    }

    /// Judges a marker line by its word, and takes it.
    pub(crate) fn take_marker(&mut self, word: Option<&[u8]>) -> Result<(), LineStop>
        ensures { (above : Tables) → KeepsColumns above.rows above.columns self.old
            → Judges (marker_fault above (option_copied word.entry))
            (KeepsColumns above.rows (above.columns ++ option_to_list (option_map marker (option_copied word.entry))) self.new) result }
    {
        let Some(word) = word else {
            return Err(LineStop::Fault(FaultKind::FieldCount));
        };
        let due: &[u8] = if self.is_open {
            b"'INTEND'"
        } else {
            b"'INTORG'"
        };
        if word != due {
            return Err(LineStop::Fault(FaultKind::Marker));
        }
        self.is_open = !self.is_open;
        self.goes_on = false;
        Ok(())
    }

    /// Judges a line of a column, and takes it.
    pub(crate) fn take(&mut self, rows: &RowTable, line: Option<PairLine>) -> Result<(), LineStop>
        requires { length self.old.factors.rows.items ≡ length rows.now }
        ensures len { length self.new.factors.rows.items ≡ length self.old.factors.rows.items }
        ensures judged { (above : Tables) → above.rows ≡ rows.now → KeepsColumns above.rows above.columns self.old
            → Judges (column_fault above (option_map pair_line_view line.entry))
            (KeepsColumns above.rows (above.columns ++ option_to_list (option_map entries (option_map pair_line_view line.entry))) self.new) result }
    {
        let Some(line) = line else {
            return Err(LineStop::Fault(FaultKind::FieldCount));
        };
        let column = self.begin(line.at, line.label)?;
        self.factors.take(rows, column, line.first)?;
        match line.second {
            Some(pair) => self.factors.take(rows, column, pair),
            None => Ok(()),
        }
    }

    // Judges the name of a line's column, and takes the line without its pairs. Answers the number of the column, from 0.
    fn begin(&mut self, at: u32, label: &[u8]) -> Result<u32, LineStop>
        ensures factors { self.new.factors ≡ self.old.factors }
        ensures judged { (rows : List RowLine) (above : List ColumnLine) → KeepsColumns rows above self.old
            → Judges (label_fault above label.now) (KeepsColumns rows (above ++ entries (bare_line at label.now) ∷ []) self.new) result }
        ensures last { (rows : List RowLine) (above : List ColumnLine) → KeepsColumns rows above self.old
            → IfOk result (IsLastColumn (above ++ entries (bare_line at label.now) ∷ []) label.now) }
    {
        match self.names.find(label) {
            Some(place) if self.goes_on && place + 1 == self.names.len() => Ok(place as u32),
            Some(_) => Err(LineStop::Fault(FaultKind::Duplicate)),
            None => self.add(at, label),
        }
    }

    // Puts a column at the end. Answers its number.
    fn add(&mut self, at: u32, label: &[u8]) -> Result<u32, LineStop>
        requires { is_among self.old.names label.now ≡ false }
        ensures factors { self.new.factors ≡ self.old.factors }
        ensures judged { (rows : List RowLine) (above : List ColumnLine) → KeepsColumns rows above self.old
            → Judges (label_fault above label.now) (KeepsColumns rows (above ++ entries (bare_line at label.now) ∷ []) self.new) result }
        ensures last { (rows : List RowLine) (above : List ColumnLine) → KeepsColumns rows above self.old
            → IfOk result (IsLastColumn (above ++ entries (bare_line at label.now) ∷ []) label.now) }
    {
        let column = self.names.len();
        if column >= MOST_COLUMNS {
            return Err(LineStop::Fault(FaultKind::TooManyColumns));
        }
        self.names.add(label)?;
        self.starts.push(ColumnStart {
            line: at,
            is_between: self.is_open,
        })?;
        self.goes_on = true;
        Ok(column as u32)
    }

    /// Hands out the names of the columns, and the factors beside the rows.
    pub(crate) fn into_parts(self) -> (Names, FactorTable)
        ensures names { result.0 ≡ self.names }
        ensures factors { result.1 ≡ self.factors }
    {
        let ColumnTable {
            names,
            starts: _,
            is_open: _,
            goes_on: _,
            factors,
        } = self;
        (names, factors)
    }
}
