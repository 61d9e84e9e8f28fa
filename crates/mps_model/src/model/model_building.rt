//! The model that a text without fault states.
ghost use Rattle.std.specs.Prelude.{◌≡◌, ◌≢◌, ◌<◌, ℕ, ℤ, Option, length, map, option_map, position, slice_index_or, IfSome, IfOk};
ghost use Rattle.std.specs.List.{HoldsAt};
ghost use Rattle.mps_model.specs.declared.tables.factors.RowFactors.{RowFactors};
ghost use Rattle.exact_math.specs.Rational.{whole};
ghost use Rattle.mps_model.specs.Tables.{Tables};
ghost use Rattle.mps_model.specs.Sides.{is_free_row, sided_rows, objective_row};
ghost use Rattle.mps_model.specs.Bounds.{column_names};
ghost use Rattle.mps_model.specs.StatedModel.{stated_column, stated_row, objective_items, stated};
ghost use Rattle.mps_model.specs.RowFaults.{row_names};
ghost use Rattle.mps_model.specs.RowKinds.{rows_of};
ghost use Rattle.mps_model.specs.FactorTables.{factors_of};
ghost use Rattle.mps_model.specs.KeptBounds.{KeepsBounds};
ghost use Rattle.mps_model.specs.KeptSides.{KeepsPairs, KeepsRanges};
ghost use Rattle.mps_model.specs.KeptTables.{KeepsTables, HaveItems};
ghost use Rattle.mps_model.specs.ModelLimits.{KeepsLimits};

use crate::model::row_sides::RowSides;
use crate::tables::bounds::BoundTable;
use crate::tables::columns::ColumnTable;
use crate::tables::factors::RowFactors;
use crate::tables::names::Names;
use crate::tables::row_kind::RowKind;
use crate::tables::rows::RowTable;
use crate::tables::sides::{SideTable, constant_of};
use frac128::Frac;
use int_model::{Column, Columns, Items, Model, Name, Row, Rows};
use sequence::NoMemory;
use std::alloc::Global;
use std::mem;

// The columns with their bounds. A column whose upper bound no entry gives has the one that is handed in.
fn build_columns(
    alloc: Global,
    names: Names,
    bounds: &BoundTable,
    given: &Option<Frac>,
) -> Result<Columns, NoMemory>
    ensures { IfOk result (λ columns. (tables : Tables) (upper : Option ℤ) → names ≡ column_names tables.columns
        → KeepsBounds names tables.bounds bounds.now → given.now ≡ option_map whole upper
        → columns ≡ map (stated_column upper tables) (column_names tables.columns)) }
{
    let mut columns = Columns::from_vec(Vec::with_capacity(alloc, names.len())?);
    for (place, name) in names.into_items().enumerate() {
        let said = bounds.of(place);
        let lower = said.lower_side();
        let upper = said.upper_side(given);
        columns.push(Column {
            name: Name::from_vec(name),
            lo: lower.unwrap_or(Frac::whole(0)),
            hi: upper.unwrap_or(Frac::whole(0)),
        })?;
    }
    Ok(columns)
}

// Hands out the items of a row, of which none are left.
fn take_items(alloc: Global, factors: &mut [RowFactors], row: usize) -> Items
    requires { row < length factors.old }
    ensures items { HoldsAt (λ found. result ≡ found.items) factors.old row }
    ensures others { (k : ℕ) (d : RowFactors) → k ≢ row → slice_index_or factors.new k d ≡ slice_index_or factors.old k d }
{
    mem::replace(&mut factors[row].items, Items::new(alloc))
}

// Hands out the items of the objective, which stands at this place.
fn take_objective(alloc: Global, factors: &mut [RowFactors], objective: Option<usize>) -> Items
    requires { IfSome objective (λ row. row < length factors.old) }
    ensures objective { (tables : Tables) → objective ≡ position is_free_row tables.rows
        → factors.old ≡ map (factors_of tables.rows tables.columns) tables.rows → result ≡ objective_items tables (objective_row tables.rows) }
    ensures rows { (tables : Tables) → objective ≡ position is_free_row tables.rows
        → factors.old ≡ map (factors_of tables.rows tables.columns) tables.rows → HaveItems tables factors.new }
{
    match objective {
        Some(row) => take_items(alloc, factors, row),
        None => Items::new(alloc),
    }
}

// The rows with sides, whose items are taken.
fn build_rows(
    alloc: Global,
    names: Names,
    kinds: &[RowKind],
    factors: &mut [RowFactors],
    sides: &SideTable,
    ranges: &SideTable,
) -> Result<Rows, NoMemory>
    requires kinds { length kinds.now ≡ length names }
    requires factors { length factors.old ≡ length names }
    ensures { IfOk result (λ rows. (tables : Tables) → rows_of kinds.now names ≡ tables.rows
        → KeepsPairs (row_names tables.rows) tables.sides sides.now → KeepsRanges tables.rows tables.sides tables.ranges ranges.now
        → HaveItems tables factors.old → rows ≡ map (stated_row tables) (sided_rows tables.rows)) }
{
    let mut rows = Rows::new(alloc);
    for (place, name) in names.into_items().enumerate() {
        let kind = kinds[place];
        if kind.has_sides() {
            let RowSides { lo, hi } = kind.sides(sides.number_or_zero(place), ranges.number(place));
            rows.push(Row {
                name: Name::from_vec(name),
                lo,
                hi,
                items: take_items(alloc, factors, place),
            })?;
        }
    }
    Ok(rows)
}

/// The model of these tables. A column whose upper bound no entry gives has the one that is handed in.
pub(crate) fn build(
    alloc: Global,
    rows: RowTable,
    columns: ColumnTable,
    sides: &SideTable,
    ranges: &SideTable,
    bounds: &BoundTable,
    given: &Option<Frac>,
) -> Result<Model, NoMemory>
    requires factors { length columns.factors.rows.items ≡ length rows }
    ensures { IfOk result (λ model. (tables : Tables) (upper : Option ℤ) → KeepsTables tables rows columns sides.now ranges.now bounds.now
        → given.now ≡ option_map whole upper → (model ≡ stated upper tables) × KeepsLimits model) }
{
    let objective = rows.objective();
    let constant = constant_of(objective, sides);
    let (column_names, mut factors) = columns.into_parts();
    let factors = factors.rows.as_mut_slice();
    let objective = take_objective(alloc, factors, objective);
    let columns = build_columns(alloc, column_names, bounds, given)?;
    let (names, kinds) = rows.into_parts();
    let rows = build_rows(alloc, names, &kinds, factors, sides, ranges)?;
    Ok(Model {
        columns,
        rows,
        objective,
        constant,
    })
}
