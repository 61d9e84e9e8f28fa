//! An integer program as its text gives it.
use frac128::Frac;
use sequence::Sequence;

/// The bytes of a row's or a column's name.
pub type Name = Sequence<u8>;

/// The terms of a row or of the objective, in rising order of column.
pub type Items = Sequence<Item>;

/// The columns in order of first appearance.
pub type Columns = Sequence<Column>;

/// The rows in order of first appearance, the objective left out.
pub type Rows = Sequence<Row>;

/// One term of a row: `factor` times the value of column number `column`, from 0.
#[derive(Clone, Copy, Debug, PartialEq, Eq, Drop)]
pub struct Item {
    pub column: u32,
    pub factor: Frac,
}

/// A whole-number variable between its two bounds, both included.
#[derive(Debug, Drop)]
pub struct Column {
    pub name: Name,
    pub lo: Frac,
    pub hi: Frac,
}

/// A sum of terms that lies between its sides, both included. A side that is absent bounds nothing.
#[derive(Debug, Drop)]
pub struct Row {
    pub name: Name,
    pub lo: Option<Frac>,
    pub hi: Option<Frac>,
    pub items: Items,
}

/// An integer program: least value of the objective's terms and the constant, over the whole numbers
/// that lie within the columns' bounds and keep each row within its sides.
#[derive(Debug, Drop)]
pub struct Model {
    pub columns: Columns,
    pub rows: Rows,
    pub objective: Items,
    pub constant: Frac,
}
