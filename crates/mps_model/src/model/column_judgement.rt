//! The faults of the columns, once all lines are read.
ghost use Rattle.std.specs.Prelude.{◌≡◌, ℕ, ℤ, List, Option, map, option_map};
ghost use Rattle.exact_math.specs.Rational.{whole};
ghost use Rattle.mps_model.specs.Tables.{Tables};
ghost use Rattle.mps_model.specs.Sides.{is_negative};
ghost use Rattle.mps_model.specs.Bounds.{column_names, is_between_markers};
ghost use Rattle.mps_model.specs.Meaning.{column_kind, first_column_fault};
ghost use Rattle.mps_model.specs.KeptBounds.{said_of, KeepsBounds};
ghost use Rattle.mps_model.specs.KeptColumns.{start_of};

use crate::fault::{FaultKind, TextFault};
use crate::tables::bounds::{BoundTable, ColumnBounds};
use crate::tables::columns::ColumnStart;
use frac128::Frac;

// Whether a number is below 0.
fn is_negative(value: &Frac) -> bool
    ensures { result ≡ is_negative value.now }
{
    value.num() < 0
}

// The fault of one column: it is to be an integer between two bounds, and its upper bound below 0 only where an entry sets
// the lower one.
fn column_fault(is_between: bool, said: &ColumnBounds, given: &Option<Frac>) -> Option<FaultKind>
    ensures { (tables : Tables) (column : List ℕ) (upper : Option ℤ) → is_between ≡ is_between_markers tables.columns column
        → said.now ≡ said_of tables.bounds column → given.now ≡ option_map whole upper → result ≡ column_kind upper tables column }
{
    if !(is_between | said.is_integer) {
        return Some(FaultKind::Continuous);
    }
    if said.lower_side().is_none() {
        return Some(FaultKind::NoLower);
    }
    let Some(upper) = said.upper_side(given) else {
        return Some(FaultKind::NoUpper);
    };
    (is_negative(&upper) & said.lower.is_none()).then_some(FaultKind::NegativeUpper)
}

/// The fault of the first column that has one, with the number of the column's first line. A column whose upper bound no
/// entry gives has the one that is handed in.
pub(crate) fn first_fault(
    starts: &[ColumnStart],
    bounds: &BoundTable,
    given: &Option<Frac>,
) -> Option<TextFault>
    ensures { (tables : Tables) (upper : Option ℤ) → starts.now ≡ map (start_of tables.columns) (column_names tables.columns)
        → KeepsBounds (column_names tables.columns) tables.bounds bounds.now → given.now ≡ option_map whole upper
        → result ≡ first_column_fault upper tables }
{
    for (column, start) in starts.iter().enumerate() {
        if let Some(kind) = column_fault(start.is_between, &bounds.of(column), given) {
            return Some(TextFault {
                kind,
                line: start.line,
            });
        }
    }
    None
}
