//! The rows of a text: its section ROWS.
ghost use Rattle.std.specs.Prelude.{◌≡◌, ◌<◌, ◌≤◌, ◌&&◌, nat_le, ℕ, List, [], ◌∷◌, ◌++◌, false, length, position, slice_get, is_some, bytes_eq, option_map, option_to_list, IfSome, OnOk};
ghost use Rattle.std.specs.List.{IsDistinct};
ghost use Rattle.mps_model.specs.Tables.{Tables};
ghost use Rattle.mps_model.specs.Sides.{is_free_row, has_sides, sided_rows};
ghost use Rattle.mps_model.specs.FaultRules.{is_among};
ghost use Rattle.mps_model.specs.RowFaults.{row_names, row_fault};
ghost use Rattle.mps_model.specs.RowKinds.{letter_of, row_of, rows_of};
ghost use Rattle.mps_model.specs.DataLineViews.{row_view};
ghost use Rattle.mps_model.specs.Judging.{Judges};

use crate::fault::FaultKind;
use crate::line_stop::LineStop;
use crate::lines::data_line::RowLine;
use crate::tables::names::Names;
use crate::tables::row_kind::RowKind;
use sequence::NoMemory;
use std::alloc::Global;
use std::marker::Model;

// How many rows of kind E, L or G a text may have.
const MOST_SIDED_ROWS: usize = 256;

/// The rows so far, with distinct names. Contracts see them as the definitions do, by letter and name.
#[derive(Drop)]
pub(crate) struct RowTable {
    names: Names,
    kinds: Vec<RowKind>,
    // The place of the first free row.
    objective: Option<usize>,
    // How many rows have sides.
    sided: usize,
}

impl Model for RowTable {
    ghost use Rattle.std.specs.Prelude.{List};
    ghost use Rattle.mps_model.specs.Tables.{RowLine as StatedRow};
    ghost use Rattle.mps_model.specs.RowKinds.{rows_of, IsRowTable};

    ghost Value = { List StatedRow };

    ghost view = { λ table. rows_of table.kinds.items table.names };

    ghost invariant = { λ table. IsRowTable table.kinds.items table.names table.objective table.sided };
}

impl RowTable {
    pub(crate) fn new(alloc: Global) -> RowTable
        ensures { result ≡ [] }
    {
        RowTable {
            names: Names::new(alloc),
            kinds: Vec::new(alloc),
            objective: None,
            sided: 0,
        }
    }

    /// Judges what a line of ROWS says, and puts its row at the end.
    pub(crate) fn add(&mut self, line: Option<RowLine>) -> Result<(), LineStop>
        ensures { (above : Tables) → above.rows ≡ self.old
            → Judges (row_fault above (option_map row_view line.entry)) (self.new ≡ self.old ++ option_to_list (option_map row_view line.entry)) result }
    {
        let Some(line) = line else {
            return Err(LineStop::Fault(FaultKind::FieldCount));
        };
        let Some(kind) = RowKind::of(line.kind) else {
            return Err(LineStop::Fault(FaultKind::RowKind));
        };
        if self.names.find(line.name).is_some() {
            return Err(LineStop::Fault(FaultKind::Duplicate));
        }
        if self.is_full_for(kind) {
            return Err(LineStop::Fault(FaultKind::TooManyRows));
        }
        self.put(kind, line.name)?;
        Ok(())
    }

    // Whether a row of this kind is one too many.
    fn is_full_for(&self, kind: RowKind) -> bool
        ensures { (name : List ℕ) → result ≡ (has_sides (row_of kind name) && nat_le 256 (length (sided_rows self.now))) }
    {
        kind.has_sides() && self.sided >= MOST_SIDED_ROWS
    }

    // Puts a row with a new name at the end. Room comes first, so that want of memory leaves the table whole.
    fn put(&mut self, kind: RowKind, name: &[u8]) -> Result<(), NoMemory>
        requires fresh { is_among (row_names self.old) name.now ≡ false }
        requires few { length (sided_rows (self.old ++ row_of kind name.now ∷ [])) ≤ 256 }
        ensures { OnOk result (self.new ≡ self.old ++ row_of kind name.now ∷ []) }
    {
        let has_sides = kind.has_sides();
        let objective = self.objective.or((!has_sides).then_some(self.kinds.len()));
        let sided = self.sided + usize::from(has_sides);
        self.kinds.reserve(1)?;
        self.names.add(name)?;
        self.kinds.push(kind)?;
        self.objective = objective;
        self.sided = sided;
        Ok(())
    }

    /// The place of the row with this name.
    pub(crate) fn find(&self, name: &[u8]) -> Option<usize>
        ensures place { result ≡ position (bytes_eq name.now) (row_names self.now) }
        ensures found { is_some result ≡ is_among (row_names self.now) name.now }
        ensures within { IfSome result (λ place. place < length self.now) }
        ensures distinct { IsDistinct bytes_eq (row_names self.now) }
    {
        self.names.find(name)
    }

    #[tactic(auto, using(crate::proofs::OnTables::RowTableLaws::table_length, crate::proofs::OnTables::RowTableLaws::kind_at))]
    pub(crate) fn kind(&self, row: usize) -> RowKind
        requires { row < length self.now }
        ensures { IfSome (slice_get self.now row) (λ line. line.kind ≡ letter_of result) }
    {
        self.kinds[row]
    }

    /// The place of the first free row.
    pub(crate) fn objective(&self) -> Option<usize>
        ensures { result ≡ position is_free_row self.now }
    {
        self.objective
    }

    #[tactic(auto, using(crate::proofs::OnTables::RowTableLaws::table_names, crate::proofs::OnTables::RowTableLaws::table_length))]
    pub(crate) fn len(&self) -> usize
        ensures len { result ≡ length self.now }
        ensures few { length (sided_rows self.now) ≤ 256 }
        ensures distinct { IsDistinct bytes_eq (row_names self.now) }
    {
        self.names.len()
    }

    /// Hands out the names and the kinds, both in order.
    pub(crate) fn into_parts(self) -> (Names, Vec<RowKind>)
        ensures rows { rows_of result.1.items result.0 ≡ self }
        ensures len { length result.1.items ≡ length result.0 }
    {
        let RowTable {
            names,
            kinds,
            objective: _,
            sided: _,
        } = self;
        (names, kinds)
    }
}
