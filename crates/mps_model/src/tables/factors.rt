//! The factors of the rows in the columns so far.
ghost use Rattle.std.specs.Prelude.{◌≡◌, [], ◌∷◌, ◌++◌, ◌<◌, List, length, map, slice_get, bytes_eq, IfOk, IfSome};
ghost use Rattle.std.specs.List.{IsDistinct};
ghost use Rattle.mps_model.specs.Tables.{PairLine as StatedLine, ColumnLine, entries};
ghost use Rattle.mps_model.specs.Bounds.{lines_of_column};
ghost use Rattle.mps_model.specs.PairFaults.{pair_names, pair_fault};
ghost use Rattle.mps_model.specs.RowFaults.{row_names};
ghost use Rattle.mps_model.specs.DataLineViews.{pair_view};
ghost use Rattle.mps_model.specs.ColumnTables.{is_stated_row, with_pair, IsLastColumn};
ghost use Rattle.mps_model.specs.FactorTables.{KeepsFactors};
ghost use Rattle.mps_model.specs.Judging.{Judges};

use crate::fault::FaultKind;
use crate::line_stop::LineStop;
use crate::lines::data_line::Pair;
use crate::tables::rows::RowTable;
use frac128::Frac;
use int_model::{Item, Items};
use mps_fields::number;
use sequence::NoMemory;
use std::alloc::Global;

/// What the columns so far have beside one row.
#[derive(Drop)]
pub(crate) struct RowFactors {
    // The last column with an entry beside the row.
    last: Option<u32>,
    // Items are kept of the objective and of rows with sides alone.
    is_stated: bool,
    pub(crate) items: Items,
}

/// The factors beside each row, in the order of the rows.
#[derive(Drop)]
pub(crate) struct FactorTable {
    pub(crate) rows: Vec<RowFactors>,
}

impl FactorTable {
    /// No factors beside these rows.
    pub(crate) fn new(alloc: Global, rows: &RowTable) -> Result<FactorTable, NoMemory>
        ensures { IfOk result (λ table. KeepsFactors rows.now [] table) }
    {
        let mut factors = Vec::with_capacity(alloc, rows.len())?;
        for row in 0..rows.len() {
            factors.push(RowFactors {
                last: None,
                is_stated: is_stated(rows, row),
                items: Items::new(alloc),
            })?;
        }
        Ok(FactorTable { rows: factors })
    }

    /// Judges one more pair on the line of the last column, and takes it.
    pub(crate) fn take(&mut self, rows: &RowTable, column: u32, pair: Pair) -> Result<(), LineStop>
        requires { length self.old.rows.items ≡ length rows.now }
        ensures len { length self.new.rows.items ≡ length self.old.rows.items }
        ensures judged { (above : List ColumnLine) (line : StatedLine) → IsLastColumn (above ++ entries line ∷ []) line.label column
            → KeepsFactors rows.now (above ++ entries line ∷ []) self.old
            → Judges (pair_fault rows.now (pair_names (lines_of_column (above ++ entries line ∷ []) line.label)) (pair_view pair.entry))
            (KeepsFactors rows.now (above ++ entries (with_pair line (pair_view pair.entry)) ∷ []) self.new) result }
    {
        let Some(place) = rows.find(pair.name) else {
            return Err(LineStop::Fault(FaultKind::UnknownRow));
        };
        let factor = number(pair.number)?;
        let row = &mut self.rows[place];
        if row.last == Some(column) {
            return Err(LineStop::Fault(FaultKind::Duplicate));
        }
        row.last = Some(column);
        if row.is_stated && factor.num() != 0 {
            row.items.push(Item { column, factor })?;
        }
        Ok(())
    }
}

// The row at this place has sides, or is the objective.
fn is_stated(rows: &RowTable, row: usize) -> bool
    requires within { row < length rows.now }
    requires distinct { IsDistinct bytes_eq (row_names rows.now) }
    ensures { IfSome (slice_get rows.now row) (λ line. result ≡ is_stated_row rows.now line) }
{
    rows.kind(row).has_sides() || rows.objective() == Some(row)
}
