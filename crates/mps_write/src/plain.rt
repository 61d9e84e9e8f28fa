//! Whether a model is plain.
ghost use Rattle.std.specs.Prelude.{◌≢◌, ◌↔◌, ℕ, ◌<◌, ◌≤◌, ◌^◌, IsTrue, All, AllPairs, length, nat_abs, bytes_eq, ◌≡◌};
ghost use Rattle.std.specs.List.{list_any};
ghost use Rattle.int_model.specs.declared.model.Column.{Column as TheColumn};
ghost use Rattle.int_model.specs.declared.model.Row.{Row as TheRow};
ghost use Rattle.int_model.specs.declared.model.Item.{Item as TheItem};
ghost use Rattle.int_model.specs.IntegerRows.{IsDistinctBelow};
ghost use Rattle.mps_write.specs.PlainModels.{IsPlainNumber, IsNameByte, IsPlainName, IsPlainItem, ArePlainItems, ArePlainSides, IsPlainColumn, IsPlainRow, IsPlain};

use frac128::Frac;
use int_model::{Column, Item, Model, Row};

/// 2 to the power 96, the greatest size of a number.
const MOST_SIZE: u128 = 1 << 96;

/// The most bytes of a name.
const MOST_NAME_BYTES: usize = 100;

/// The most columns, and the most rows.
const MOST_PARTS: usize = 256;

/// Whether a model is plain, so that it has a canonical text: its numbers are whole and at most 2^96 in size, its names
/// have 1 to 100 printed bytes and are distinct, and no row lacks both sides or has sides that cross.
pub fn is_plain(model: &Model) -> bool
    ensures { IsTrue result ↔ IsPlain model.now }
{
    let columns = model.columns.items();
    let rows = model.rows.items();
    has_plain_parts(columns, rows)
        && has_own_names(columns, rows)
        && are_plain_items(columns.len(), model.objective.items())
        && is_plain_number(&model.constant)
}

fn has_plain_parts(columns: &[Column], rows: &[Row]) -> bool
    ensures { IsTrue result ↔ ((length columns.now ≤ 256) × (length rows.now ≤ 256) × All IsPlainColumn columns.now × All (IsPlainRow (length columns.now)) rows.now) }
{
    columns.len() <= MOST_PARTS
        && rows.len() <= MOST_PARTS
        && columns.iter().all(|column| is_plain_column(column))
        && are_plain_rows(columns.len(), rows)
}

fn has_own_names(columns: &[Column], rows: &[Row]) -> bool
    ensures { IsTrue result ↔ (AllPairs (λ (a b : TheColumn). a.name ≢ b.name) columns.now × AllPairs (λ (a b : TheRow). a.name ≢ b.name) rows.now) }
{
    do_column_names_differ(columns) && do_row_names_differ(rows)
}

fn is_plain_number(number: &Frac) -> bool
    ensures { IsTrue result ↔ IsPlainNumber number.now }
{
    number.is_integer() && number.num().unsigned_abs() <= MOST_SIZE
}

fn is_plain_name(name: &[u8]) -> bool
    ensures { IsTrue result ↔ IsPlainName name.now }
{
    !name.is_empty()
        && name.len() <= MOST_NAME_BYTES
        && name.iter().all(|byte| *byte >= b'!' && *byte <= b'~')
}

fn is_plain_column(column: &Column) -> bool
    ensures { IsTrue result ↔ IsPlainColumn column.now }
{
    is_plain_name(column.name.items()) && is_plain_number(&column.lo) && is_plain_number(&column.hi)
}

fn is_plain_item(item: &Item) -> bool
    ensures { IsTrue result ↔ IsPlainItem item.now }
{
    is_plain_number(&item.factor) && item.factor.num() != 0
}

// Whether the items name columns below this number, in rising order.
fn do_items_rise(columns: usize, items: &[Item]) -> bool
    ensures { IsTrue result ↔ IsDistinctBelow columns items.now }
{
    let mut least = 0;
    for item in items {
        let column = item.column as usize;
        if column < least || column >= columns {
            return false;
        }
        least = column + 1;
    }
    true
}

fn are_plain_items(columns: usize, items: &[Item]) -> bool
    ensures { IsTrue result ↔ ArePlainItems columns items.now }
{
    do_items_rise(columns, items) && items.iter().all(|item| is_plain_item(item))
}

#[tactic(auto, using(exact_math::specs::RationalTests::rational_tests))]
fn are_plain_sides(low: &Option<Frac>, high: &Option<Frac>) -> bool
    ensures { IsTrue result ↔ ArePlainSides low.now high.now }
{
    match (low, high) {
        (None, None) => false,
        (None, Some(high)) => is_plain_number(high),
        (Some(low), None) => is_plain_number(low),
        (Some(low), Some(high)) => is_plain_number(low) && is_plain_number(high) && low <= high,
    }
}

fn is_plain_row(columns: usize, row: &Row) -> bool
    ensures { IsTrue result ↔ IsPlainRow columns row.now }
{
    let name = row.name.items();
    is_plain_name(name)
        && name != b"COST".as_slice()
        && name != b"'MARKER'".as_slice()
        && are_plain_sides(&row.lo, &row.hi)
        && are_plain_items(columns, row.items.items())
}

fn are_plain_rows(columns: usize, rows: &[Row]) -> bool
    ensures { IsTrue result ↔ All (IsPlainRow columns) rows.now }
{
    rows.iter().all(|row| is_plain_row(columns, row))
}

fn has_column_name(columns: &[Column], name: &[u8]) -> bool
    ensures { result ≡ list_any (λ (column : TheColumn). bytes_eq column.name name.now) columns.now }
{
    columns.iter().any(|column| column.name.items() == name)
}

fn do_column_names_differ(columns: &[Column]) -> bool
    ensures { IsTrue result ↔ AllPairs (λ (a b : TheColumn). a.name ≢ b.name) columns.now }
{
    for (place, column) in columns.iter().enumerate() {
        if has_column_name(&columns[..place], column.name.items()) {
            return false;
        }
    }
    true
}

fn has_row_name(rows: &[Row], name: &[u8]) -> bool
    ensures { result ≡ list_any (λ (row : TheRow). bytes_eq row.name name.now) rows.now }
{
    rows.iter().any(|row| row.name.items() == name)
}

fn do_row_names_differ(rows: &[Row]) -> bool
    ensures { IsTrue result ↔ AllPairs (λ (a b : TheRow). a.name ≢ b.name) rows.now }
{
    for (place, row) in rows.iter().enumerate() {
        if has_row_name(&rows[..place], row.name.items()) {
            return false;
        }
    }
    true
}
