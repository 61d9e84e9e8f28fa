//! Market split models.
ghost use Rattle.std.specs.Prelude.{◌≡◌, ◌+◌, ◌*◌, ◌%◌, ◌<◌, ◌≤◌, ◌++◌, ℕ, IfOk, OnOk, option_to_list};
ghost use Rattle.mps_write.specs.PlainModels.{IsPlain};
ghost use Rattle.mps_write.specs.Markets.{next_number, stream_at, market_item, market_row as row_of, market_column as column_of, numbered_name as name_of, market_model};

use frac128::Frac;
use int_model::{Column, Columns, Item, Items, Model, Name, Row, Rows};
use itoa::Buffer;
use sequence::NoMemory;
use std::alloc::Global;

/// The multiplier of the stream: the minimal standard generator of Park and Miller, as revised in 1993.
const MULTIPLIER: u64 = 48_271;

/// The modulus of the stream, 2 to the power 31 less 1.
const MODULUS: u64 = 2_147_483_647;

/// A stream of numbers below the modulus.
#[derive(Clone, Copy, Debug, Drop)]
struct Stream {
    number: u64,
}

impl Stream {
    /// Steps on, and answers the last two decimal digits of the number there.
    fn next_factor(&mut self) -> u64
        requires { self.old.number < 2147483647 }
        ensures number { self.new.number ≡ next_number self.old.number }
        ensures factor { result ≡ self.new.number % 100 }
    {
        self.number = MULTIPLIER * self.number % MODULUS;
        self.number % 100
    }
}

// A letter and the place, from 1.
fn numbered_name(alloc: Global, letter: u8, place: u32) -> Result<Name, NoMemory>
    requires { place < 256 }
    ensures { IfOk result (λ name. name ≡ name_of letter place) }
{
    let mut name = Vec::new(alloc);
    name.push(letter)?;
    let mut buffer = Buffer::new();
    name.extend_from_slice(buffer.format(place + 1).as_bytes())?;
    Ok(Name::from_vec(name))
}

fn market_column(alloc: Global, place: u32) -> Result<Column, NoMemory>
    requires { place < 256 }
    ensures { IfOk result (λ column. column ≡ column_of place) }
{
    Ok(Column {
        name: numbered_name(alloc, b'X', place)?,
        lo: Frac::whole(0),
        hi: Frac::whole(1),
    })
}

// Puts the term of a column at the end, where its factor is not 0.
fn push_item(items: &mut Items, column: u32, factor: u64) -> Result<(), NoMemory>
    requires { factor < 100 }
    ensures { OnOk result (items.new ≡ items.old ++ option_to_list (market_item factor column)) }
{
    if factor != 0 {
        items.push(Item {
            column,
            factor: Frac::whole(i128::from(factor)),
        })?;
    }
    Ok(())
}

// The row at a place, from 0, with the stream before its first factor.
fn market_row(alloc: Global, stream: &mut Stream, columns: u32, place: u32) -> Result<Row, NoMemory>
    requires few { columns ≤ 100 }
    requires place { place < 10 }
    requires stream { stream.old.number < 2147483647 }
    ensures row { (start : ℕ) → stream.old.number ≡ stream_at start (place * columns) → IfOk result (λ row. row ≡ row_of start columns place) }
    ensures stream { (start : ℕ) → stream.old.number ≡ stream_at start (place * columns) → IfOk result (λ _. stream.new.number ≡ stream_at start ((place + 1) * columns)) }
    ensures below { stream.new.number < 2147483647 }
{
    let mut items = Items::new(alloc);
    let mut sum = 0;
    for column in 0..columns {
        let factor = stream.next_factor();
        push_item(&mut items, column, factor)?;
        sum += factor;
    }
    let half = Frac::whole(i128::from(sum / 2));
    Ok(Row {
        name: numbered_name(alloc, b'R', place)?,
        lo: Some(half),
        hi: Some(half),
        items,
    })
}

/// The market split model of so many rows (1 to 10) and columns (1 to 100), from this start of the stream (from 1 to
/// 2147483646).
pub fn market(alloc: Global, rows: u32, columns: u32, start: u32) -> Result<Model, NoMemory>
    requires rows { (1 ≤ rows) × (rows ≤ 10) }
    requires columns { (1 ≤ columns) × (columns ≤ 100) }
    requires start { (1 ≤ start) × (start ≤ 2147483646) }
    ensures model { IfOk result (λ model. model ≡ market_model rows columns start) }
    ensures plain { IfOk result IsPlain }
{
    let mut all_columns = Columns::new(alloc);
    for place in 0..columns {
        all_columns.push(market_column(alloc, place)?)?;
    }
    let mut stream = Stream {
        number: u64::from(start),
    };
    let mut all_rows = Rows::new(alloc);
    for place in 0..rows {
        all_rows.push(market_row(alloc, &mut stream, columns, place)?)?;
    }
    Ok(Model {
        columns: all_columns,
        rows: all_rows,
        objective: Items::new(alloc),
        constant: Frac::whole(0),
    })
}
