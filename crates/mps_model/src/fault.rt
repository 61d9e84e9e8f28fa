//! The faults of a model text.

/// What is wrong with a line of a model text, or with a column that begins there.
#[derive(Clone, Copy, Debug, PartialEq, Eq)]
pub enum FaultKind {
    /// A byte that is neither printed ASCII, blank nor tab; in fixed form also a data line out of its columns.
    Byte,
    /// More than 1,024 bytes.
    LongLine,
    /// A section line whose word is unknown or out of order, or a data line before ROWS.
    Section,
    /// Too few or too many fields.
    FieldCount,
    /// A row kind other than N, E, L and G.
    RowKind,
    /// A row, a column or an entry that is there already.
    Duplicate,
    /// A name that is no row's.
    UnknownRow,
    /// A name that is no column's.
    UnknownColumn,
    /// A field that is not written as a number.
    NotNumber,
    /// A number that does not fit as it is written, or the side of a row with a range that leaves the range of exact fractions.
    WideNumber,
    /// A marker line with another word, or one that opens twice or closes what is not open.
    Marker,
    /// A bound kind that is none of the nine.
    BoundKind,
    /// A set name that differs from the section's first.
    SecondSet,
    /// A range on an N row.
    RangeOnObjective,
    /// A column that is not integer.
    Continuous,
    /// A column without an upper bound.
    NoUpper,
    /// A column without a lower bound.
    NoLower,
    /// An upper bound below 0 where no entry sets the lower bound.
    NegativeUpper,
    /// The 257th row of kind E, L or G.
    TooManyRows,
    /// The 257th column.
    TooManyColumns,
    /// The text ends before ENDATA.
    NoEnd,
}

/// A fault and the number of its line, from 1; for a text without ENDATA, the number of its lines.
#[derive(Clone, Copy, Debug, PartialEq, Eq)]
pub struct TextFault {
    pub kind: FaultKind,
    pub line: u32,
}
