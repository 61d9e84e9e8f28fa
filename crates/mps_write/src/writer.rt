//! The canonical text of a plain model.
ghost use Rattle.std.specs.Prelude.{◌≡◌, ◌∷◌, [], ◌++◌, ◌↔◌, ◌≢◌, ◌^◌, ◌≤◌, ℕ, suc, List, map, flat_map, filter_map, option_to_list, option_map, length, nat_abs, neg_ℤ, All, OnOk, IfOk, Ok, IsTrue, is_some, None, codes};
ghost use Rattle.std.specs.List.{list_any};
ghost use Rattle.std.specs.Fmt.{signed_decimal};
ghost use Rattle.int_model.specs.declared.model.Row.{Row as TheRow};
ghost use Rattle.mps_fields.specs.Lines.{most_bytes};
ghost use Rattle.mps_model.specs.declared.layout.Layout.TheVariants.{Free};
ghost use Rattle.mps_model.specs.Meaning.{meaning};
ghost use Rattle.mps_write.specs.PlainModels.{ArePlainSides, IsPlain};
ghost use Rattle.mps_write.specs.CanonicalText.{data_line, in_lines, section, section_of_some, row_fields, row_table, pair_of, factor_in, factor_pair, items_of_row, all_items, or_zero, labelled, column_table, objective_name, some_pair, side_pair, side_pairs, row_range, range_pair, range_pairs, unlabelled, bound_fields, bound_table, canonical_text};

use crate::sides::WholeSides;
use frac128::Frac;
use int_model::{Column, Item, Model, Row};
use itoa::Buffer;
use sequence::{NoMemory, Sequence};
use std::alloc::Global;

/// The bytes of a text.
pub type Text = Sequence<u8>;

/// The canonical text of a plain model. Read in free form, without an upper bound for columns that have none, it means
/// the model again; it is no longer than a text that is read may be.
pub fn write(alloc: Global, model: &Model) -> Result<Text, NoMemory>
    requires { IsPlain model.now }
    ensures text { IfOk result (λ text. text ≡ canonical_text model.now) }
    ensures means { IfOk result (λ text. meaning Free None text ≡ Ok model.now) }
    ensures size { IfOk result (λ text. length text ≤ most_bytes) }
{
    print(alloc, model)
}

// The text of the sections, one after another.
fn print(alloc: Global, model: &Model) -> Result<Text, NoMemory>
    requires { IsPlain model.now }
    ensures { IfOk result (λ text. text ≡ canonical_text model.now) }
{
    let mut text = Vec::from_slice(alloc, b"NAME SLICER\n")?;
    push_rows(&mut text, model.rows.items())?;
    push_columns(&mut text, model)?;
    push_sides(&mut text, model)?;
    push_ranges(&mut text, model.rows.items())?;
    push_bounds(&mut text, model.columns.items())?;
    text.extend_from_slice(b"ENDATA\n")?;
    Ok(Text::from_vec(text))
}

// Puts a blank and a field at the end.
fn push_field(text: &mut Vec<u8>, field: &[u8]) -> Result<(), NoMemory>
    ensures { OnOk result (text.new.items ≡ text.old.items ++ 32 ∷ field.now) }
{
    text.push(b' ')?;
    text.extend_from_slice(field)?;
    Ok(())
}

// Puts a blank and a number at the end.
fn push_number(text: &mut Vec<u8>, number: i128) -> Result<(), NoMemory>
    ensures { OnOk result (text.new.items ≡ text.old.items ++ 32 ∷ signed_decimal number) }
{
    let mut buffer = Buffer::new();
    push_field(text, buffer.format(number).as_bytes())
}

// Puts the line of a name and a number at the end.
fn push_pair(text: &mut Vec<u8>, name: &[u8], number: i128) -> Result<(), NoMemory>
    ensures { OnOk result (text.new.items ≡ text.old.items ++ (data_line (name.now ∷ signed_decimal number ∷ []) ++ 10 ∷ [])) }
{
    push_field(text, name)?;
    push_number(text, number)?;
    text.push(b'\n')?;
    Ok(())
}

// Puts the line of a field, a name and a number at the end.
fn push_entry(text: &mut Vec<u8>, first: &[u8], name: &[u8], number: i128) -> Result<(), NoMemory>
    ensures { OnOk result (text.new.items ≡ text.old.items ++ (data_line (first.now ∷ name.now ∷ signed_decimal number ∷ []) ++ 10 ∷ [])) }
{
    push_field(text, first)?;
    push_pair(text, name, number)
}

// Puts the line of a row in ROWS at the end.
fn push_row(text: &mut Vec<u8>, row: &Row) -> Result<(), NoMemory>
    ensures { OnOk result (text.new.items ≡ text.old.items ++ (data_line (row_fields row.now) ++ 10 ∷ [])) }
{
    push_field(text, WholeSides::of(row).kind())?;
    push_field(text, row.name.items())?;
    text.push(b'\n')?;
    Ok(())
}

// Puts ROWS at the end.
fn push_rows(text: &mut Vec<u8>, rows: &[Row]) -> Result<(), NoMemory>
    ensures { OnOk result (text.new.items ≡ text.old.items ++ in_lines (section (codes "ROWS") (row_table rows.now))) }
{
    text.extend_from_slice(b"ROWS\n N COST\n")?;
    for row in rows {
        push_row(text, row)?;
    }
    Ok(())
}

// The factor of a column, where the items have one.
fn factor_of(column: u32, items: &[Item]) -> Option<Frac>
    ensures { result ≡ factor_in column items.now }
{
    items
        .iter()
        .find(|item| item.column == column)
        .map(|item| item.factor)
}

// Puts the line of a column and a row at the end, where the items of the row have the column, and answers whether they do.
fn push_factor(
    text: &mut Vec<u8>,
    number: u32,
    column: &[u8],
    name: &[u8],
    items: &[Item],
) -> Result<bool, NoMemory>
    ensures text { IfOk result (λ _. text.new.items ≡ text.old.items ++ in_lines (map data_line (map (labelled column.now) (option_to_list (factor_pair number (record { name = name.now; items = items.now })))))) }
    ensures found { IfOk result (λ found. found ≡ is_some (factor_in number items.now)) }
{
    match factor_of(number, items) {
        Some(factor) => {
            push_entry(text, column, name, factor.num())?;
            Ok(true)
        }
        None => Ok(false),
    }
}

// Puts the lines of a column and each row that has it at the end, and answers whether there is one.
fn push_row_factors(
    text: &mut Vec<u8>,
    number: u32,
    column: &[u8],
    rows: &[Row],
) -> Result<bool, NoMemory>
    ensures text { IfOk result (λ _. text.new.items ≡ text.old.items ++ in_lines (map data_line (map (labelled column.now) (filter_map (factor_pair number) (map items_of_row rows.now))))) }
    ensures found { IfOk result (λ found. IsTrue found ↔ (filter_map (factor_pair number) (map items_of_row rows.now) ≢ [])) }
{
    let mut found = false;
    for row in rows {
        found |= push_factor(text, number, column, row.name.items(), row.items.items())?;
    }
    Ok(found)
}

// Puts the lines of a column at the end.
fn push_column(
    text: &mut Vec<u8>,
    number: u32,
    column: &[u8],
    model: &Model,
) -> Result<(), NoMemory>
    ensures { OnOk result (text.new.items ≡ text.old.items ++ in_lines (map data_line (map (labelled column.now) (or_zero (filter_map (factor_pair number) (all_items model.now)))))) }
{
    let in_objective = push_factor(text, number, column, b"COST", model.objective.items())?;
    let in_rows = push_row_factors(text, number, column, model.rows.items())?;
    if !in_objective && !in_rows {
        push_entry(text, column, b"COST", 0)?;
    }
    Ok(())
}

// Puts the lines of the columns at the end.
fn push_column_lines(text: &mut Vec<u8>, columns: &[Column], model: &Model) -> Result<(), NoMemory>
    requires { length columns.now ≤ 256 }
    ensures { OnOk result (text.new.items ≡ text.old.items ++ in_lines (map data_line (column_table (all_items model.now) 0 columns.now))) }
{
    for (number, column) in columns.iter().enumerate() {
        push_column(text, number as u32, column.name.items(), model)?;
    }
    Ok(())
}

// Puts COLUMNS at the end.
fn push_columns(text: &mut Vec<u8>, model: &Model) -> Result<(), NoMemory>
    requires { length model.now.columns ≤ 256 }
    ensures { OnOk result (text.new.items ≡ text.old.items ++ in_lines (section (codes "COLUMNS") (column_table (all_items model.now) 0 model.now.columns))) }
{
    text.extend_from_slice(b"COLUMNS\n")?;
    push_column_lines(text, model.columns.items(), model)
}

// Puts the line of a name and its number in RHS at the end, where the number is not 0.
fn push_side(text: &mut Vec<u8>, name: &[u8], side: i128) -> Result<(), NoMemory>
    ensures { OnOk result (text.new.items ≡ text.old.items ++ in_lines (map data_line (map unlabelled (option_to_list (some_pair name.now side))))) }
{
    if side == 0 {
        return Ok(());
    }
    push_pair(text, name, side)
}

// Puts the line of the constant in RHS at the end, where it is not 0.
fn push_constant(text: &mut Vec<u8>, constant: &Frac) -> Result<(), NoMemory>
    requires { nat_abs constant.now.num ≤ 2 ^ 96 }
    ensures { OnOk result (text.new.items ≡ text.old.items ++ in_lines (map data_line (map unlabelled (option_to_list (some_pair objective_name (neg_ℤ constant.now.num)))))) }
{
    push_side(text, b"COST", -constant.num())
}

// Puts the line of a row in RHS at the end, where its number is not 0.
fn push_row_side(text: &mut Vec<u8>, row: &Row) -> Result<(), NoMemory>
    ensures { OnOk result (text.new.items ≡ text.old.items ++ in_lines (map data_line (map unlabelled (option_to_list (side_pair row.now))))) }
{
    push_side(text, row.name.items(), WholeSides::of(row).right_side())
}

// Puts the lines of the rows in RHS at the end.
fn push_row_sides(text: &mut Vec<u8>, rows: &[Row]) -> Result<(), NoMemory>
    ensures { OnOk result (text.new.items ≡ text.old.items ++ in_lines (map data_line (map unlabelled (filter_map side_pair rows.now)))) }
{
    for row in rows {
        push_row_side(text, row)?;
    }
    Ok(())
}

// Puts RHS at the end.
fn push_sides(text: &mut Vec<u8>, model: &Model) -> Result<(), NoMemory>
    requires { nat_abs model.now.constant.num ≤ 2 ^ 96 }
    ensures { OnOk result (text.new.items ≡ text.old.items ++ in_lines (section (codes "RHS") (map unlabelled (side_pairs model.now)))) }
{
    text.extend_from_slice(b"RHS\n")?;
    push_constant(text, &model.constant)?;
    push_row_sides(text, model.rows.items())
}

// Puts the line of a row in RANGES at the end, where it has one.
fn push_range(text: &mut Vec<u8>, row: &Row) -> Result<(), NoMemory>
    requires { ArePlainSides row.now.lo row.now.hi }
    ensures { OnOk result (text.new.items ≡ text.old.items ++ in_lines (map data_line (map unlabelled (option_to_list (range_pair row.now))))) }
{
    match WholeSides::of(row).range() {
        Some(range) => push_pair(text, row.name.items(), range),
        None => Ok(()),
    }
}

// Whether a row has a range.
fn has_ranges(rows: &[Row]) -> bool
    ensures { result ≡ list_any (λ (row : TheRow). is_some (row_range row)) rows.now }
{
    rows.iter().any(|row| WholeSides::of(row).has_range())
}

// Puts RANGES at the end, where a row has a range.
fn push_ranges(text: &mut Vec<u8>, rows: &[Row]) -> Result<(), NoMemory>
    requires { All (λ (row : TheRow). ArePlainSides row.lo row.hi) rows.now }
    ensures { OnOk result (text.new.items ≡ text.old.items ++ in_lines (section_of_some (codes "RANGES") (map unlabelled (range_pairs rows.now)))) }
{
    if !has_ranges(rows) {
        return Ok(());
    }
    text.extend_from_slice(b"RANGES\n")?;
    for row in rows {
        push_range(text, row)?;
    }
    Ok(())
}

// Puts the lines of a column in BOUNDS at the end.
fn push_bound(text: &mut Vec<u8>, column: &Column) -> Result<(), NoMemory>
    ensures { OnOk result (text.new.items ≡ text.old.items ++ in_lines (map data_line (bound_fields column.now))) }
{
    push_entry(text, b"LI", column.name.items(), column.lo.num())?;
    push_entry(text, b"UI", column.name.items(), column.hi.num())
}

// Puts BOUNDS at the end.
fn push_bounds(text: &mut Vec<u8>, columns: &[Column]) -> Result<(), NoMemory>
    ensures { OnOk result (text.new.items ≡ text.old.items ++ in_lines (section (codes "BOUNDS") (bound_table columns.now))) }
{
    text.extend_from_slice(b"BOUNDS\n")?;
    for column in columns {
        push_bound(text, column)?;
    }
    Ok(())
}
