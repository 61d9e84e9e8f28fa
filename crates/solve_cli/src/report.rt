//! The report of a run.
ghost use Rattle.std.specs.Prelude.{◌≡◌, ◌++◌, ◌∷◌, [], pos, IfOk, OnOk, codes, decimal};
ghost use Rattle.std.specs.Fmt.{signed_decimal};
ghost use Rattle.solve_cli.specs.Report.{report_of, fraction_text, point_lines, best_lines, count_lines, bare_lines, found_lines, market_line, limit_line, IsPartOf, text_line, name_of, reject_name, reject_line};

use crate::counts::Counts;
use frac128::Frac;
use int_model::{Column, Model, Part};
use itoa::Buffer;
use mps_model::{FaultKind, TextFault};
use sequence::NoMemory;
use std::alloc::Global;
use tree_checker::{Reject, RejectKind};

// Puts bytes and a line feed at the end.
fn put_line(text: &mut Vec<u8>, line: &[u8]) -> Result<(), NoMemory>
    ensures { OnOk result (text.new.items ≡ text.old.items ++ report_of (line.now ∷ [])) }
{
    text.extend_from_slice(line)?;
    text.push(b'\n')?;
    Ok(())
}

// Puts the number in decimal digits at the end.
fn put_number(text: &mut Vec<u8>, number: i128) -> Result<(), NoMemory>
    ensures { OnOk result (text.new.items ≡ text.old.items ++ signed_decimal number) }
{
    let mut buffer = Buffer::new();
    text.extend_from_slice(buffer.format(number).as_bytes())?;
    Ok(())
}

// Puts the fraction at the end: a whole number in digits, any other as two numbers.
fn put_fraction(text: &mut Vec<u8>, fraction: &Frac) -> Result<(), NoMemory>
    ensures { OnOk result (text.new.items ≡ text.old.items ++ fraction_text fraction.now) }
{
    put_number(text, fraction.num())?;
    let denominator = fraction.den();
    if denominator != 1 {
        text.push(b'/')?;
        put_number(text, denominator)?;
    }
    Ok(())
}

// Puts the line of a value at the end.
fn put_value(text: &mut Vec<u8>, value: &Frac) -> Result<(), NoMemory>
    ensures { OnOk result (text.new.items ≡ text.old.items ++ report_of ((codes "VALUE " ++ fraction_text value.now) ∷ [])) }
{
    text.extend_from_slice(b"VALUE ")?;
    put_fraction(text, value)?;
    put_line(text, b"")
}

// Puts the line of a column at the end: its value and its name.
fn put_point(text: &mut Vec<u8>, column: &Column, value: i128) -> Result<(), NoMemory>
    ensures { OnOk result (text.new.items ≡ text.old.items ++ report_of (point_lines (column.now ∷ []) (value ∷ []))) }
{
    text.extend_from_slice(b"POINT ")?;
    put_number(text, value)?;
    text.push(b' ')?;
    put_line(text, column.name.items())
}

// Puts the lines of the columns at the end, in order.
fn put_points(text: &mut Vec<u8>, columns: &[Column], point: &[i128]) -> Result<(), NoMemory>
    ensures { OnOk result (text.new.items ≡ text.old.items ++ report_of (point_lines columns.now point.now)) }
{
    for (column, value) in columns.iter().zip(point) {
        put_point(text, column, *value)?;
    }
    Ok(())
}

// Puts the lines of the counts at the end.
fn put_counts(text: &mut Vec<u8>, counts: Counts) -> Result<(), NoMemory>
    ensures { OnOk result (text.new.items ≡ text.old.items ++ report_of (count_lines counts.nodes counts.plain)) }
{
    text.extend_from_slice(b"NODES ")?;
    put_count(text, counts.nodes)?;
    text.extend_from_slice(b"PLAIN ")?;
    put_count(text, counts.plain)
}

// Puts the number in decimal digits and a line feed at the end.
fn put_count(text: &mut Vec<u8>, count: u64) -> Result<(), NoMemory>
    ensures { OnOk result (text.new.items ≡ text.old.items ++ report_of (decimal count ∷ [])) }
{
    let mut buffer = Buffer::new();
    put_line(text, buffer.format(count).as_bytes())
}

// Puts the number in decimal digits and a blank at the end.
fn put_first(text: &mut Vec<u8>, number: u32) -> Result<(), NoMemory>
    ensures { OnOk result (text.new.items ≡ text.old.items ++ decimal number ++ 32 ∷ []) }
{
    let mut buffer = Buffer::new();
    text.extend_from_slice(buffer.format(number).as_bytes())?;
    text.push(b' ')?;
    Ok(())
}

/// The report on a market, behind the line of its numbers.
pub(crate) fn market_report(
    alloc: Global,
    m: u32,
    n: u32,
    start: u32,
    report: &[u8],
) -> Result<Vec<u8>, NoMemory>
    ensures { IfOk result (λ text. text.items ≡ report_of (market_line m n start ∷ []) ++ report.now) }
{
    let mut text = Vec::from_slice(alloc, b"MARKET ")?;
    put_first(&mut text, m)?;
    put_first(&mut text, n)?;
    put_count(&mut text, u64::from(start))?;
    text.extend_from_slice(report)?;
    Ok(text)
}

/// The report of a search that found a point: its value, and a line for each column.
pub(crate) fn found_report(
    alloc: Global,
    head: &[u8],
    value: &Frac,
    columns: &[Column],
    point: &[i128],
    counts: Counts,
) -> Result<Vec<u8>, NoMemory>
    ensures { IfOk result (λ text. text.items ≡ report_of (found_lines head.now value.now columns.now point.now counts.nodes counts.plain)) }
{
    let mut text = Vec::new(alloc);
    put_line(&mut text, head)?;
    put_value(&mut text, value)?;
    put_points(&mut text, columns, point)?;
    put_counts(&mut text, counts)?;
    Ok(text)
}

/// The report of a search that found no point.
pub(crate) fn bare_report(alloc: Global, head: &[u8], counts: Counts) -> Result<Vec<u8>, NoMemory>
    ensures { IfOk result (λ text. text.items ≡ report_of (bare_lines head.now counts.nodes counts.plain)) }
{
    let mut text = Vec::new(alloc);
    put_line(&mut text, head)?;
    put_counts(&mut text, counts)?;
    Ok(text)
}

/// The report of one line.
pub(crate) fn line_report(alloc: Global, line: &[u8]) -> Result<Vec<u8>, NoMemory>
    ensures { IfOk result (λ text. text.items ≡ report_of (line.now ∷ [])) }
{
    let mut text = Vec::new(alloc);
    put_line(&mut text, line)?;
    Ok(text)
}

// The report of one line that ends with a name.
fn name_report(alloc: Global, front: &[u8], name: &[u8]) -> Result<Vec<u8>, NoMemory>
    ensures { IfOk result (λ text. text.items ≡ report_of ((front.now ++ name.now) ∷ [])) }
{
    let mut text = Vec::from_slice(alloc, front)?;
    put_line(&mut text, name)?;
    Ok(text)
}

/// The report of a model of which a part is too large.
pub(crate) fn limit_report(alloc: Global, model: &Model, part: Part) -> Result<Vec<u8>, NoMemory>
    requires { IsPartOf model.now part }
    ensures { IfOk result (λ text. text.items ≡ report_of (limit_line model.now part ∷ [])) }
{
    match part {
        Part::Column(j) => {
            let column = &model.columns.items()[j as usize];
            name_report(alloc, b"LIMIT COLUMN ", column.name.items())
        }
        Part::Row(i) => {
            let row = &model.rows.items()[i as usize];
            name_report(alloc, b"LIMIT ROW ", row.name.items())
        }
        Part::Objective => line_report(alloc, b"LIMIT OBJECTIVE"),
    }
}

// The name that is printed for a kind of fault.
fn kind_name(kind: FaultKind) -> &'static str
    ensures { result.now ≡ name_of kind }
{
    match kind {
        FaultKind::Byte => "Byte",
        FaultKind::LongLine => "LongLine",
        FaultKind::Section => "Section",
        FaultKind::FieldCount => "FieldCount",
        FaultKind::RowKind => "RowKind",
        FaultKind::Duplicate => "Duplicate",
        FaultKind::UnknownRow => "UnknownRow",
        FaultKind::UnknownColumn => "UnknownColumn",
        FaultKind::NotNumber => "NotNumber",
        FaultKind::WideNumber => "WideNumber",
        FaultKind::Marker => "Marker",
        FaultKind::BoundKind => "BoundKind",
        FaultKind::SecondSet => "SecondSet",
        FaultKind::RangeOnObjective => "RangeOnObjective",
        FaultKind::Continuous => "Continuous",
        FaultKind::NoUpper => "NoUpper",
        FaultKind::NoLower => "NoLower",
        FaultKind::NegativeUpper => "NegativeUpper",
        FaultKind::TooManyRows => "TooManyRows",
        FaultKind::TooManyColumns => "TooManyColumns",
        FaultKind::NoEnd => "NoEnd",
    }
}

/// The report of a text with a fault: its kind and the number of its line.
pub(crate) fn text_report(alloc: Global, fault: TextFault) -> Result<Vec<u8>, NoMemory>
    ensures { IfOk result (λ text. text.items ≡ report_of (text_line fault ∷ [])) }
{
    let mut text = Vec::from_slice(alloc, b"TEXT ")?;
    text.extend_from_slice(kind_name(fault.kind).as_bytes())?;
    text.push(b' ')?;
    let mut buffer = Buffer::new();
    put_line(&mut text, buffer.format(fault.line).as_bytes())?;
    Ok(text)
}

/// The report of a line and a value.
pub(crate) fn value_report(alloc: Global, head: &[u8], value: &Frac) -> Result<Vec<u8>, NoMemory>
    ensures { IfOk result (λ text. text.items ≡ report_of (head.now ∷ (codes "VALUE " ++ fraction_text value.now) ∷ [])) }
{
    let mut text = Vec::new(alloc);
    put_line(&mut text, head)?;
    put_value(&mut text, value)?;
    Ok(text)
}

// The name that is printed for the kind of a line that is refused.
fn reject_kind_name(kind: RejectKind) -> &'static str
    ensures { result.now ≡ reject_name kind }
{
    match kind {
        RejectKind::LongLine => "LongLine",
        RejectKind::Short => "Short",
        RejectKind::Tail => "Tail",
        RejectKind::Head => "Head",
        RejectKind::Claim => "Claim",
        RejectKind::Point => "Point",
        RejectKind::Record => "Record",
        RejectKind::Number => "Number",
        RejectKind::Depth => "Depth",
        RejectKind::Weight => "Weight",
        RejectKind::Cut => "Cut",
        RejectKind::Refute => "Refute",
    }
}

/// The report of a proof that is refused: the kind and the number of its first line that does not pass.
pub(crate) fn reject_report(alloc: Global, reject: Reject) -> Result<Vec<u8>, NoMemory>
    ensures { IfOk result (λ text. text.items ≡ report_of (reject_line reject ∷ [])) }
{
    let mut text = Vec::from_slice(alloc, b"REJECTED ")?;
    text.extend_from_slice(reject_kind_name(reject.kind).as_bytes())?;
    text.push(b' ')?;
    put_count(&mut text, reject.line)?;
    Ok(text)
}
