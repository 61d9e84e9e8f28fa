//! The customary MPS formats: the lines of a text, the fields of a line in free and fixed form, and exact decimal numbers.
#![tactic(auto)]

mod decimal_parts;
mod decimal_value;
mod examples;
mod field;
mod fixed_form;
mod free_form;
mod numbers;
mod runs;
mod text_lines;

pub use examples::{
    fixed_fields_lie_in_columns, free_fields_are_runs, one_reading, worked_columns, worked_fields,
    worked_lines, worked_numbers,
};
pub use field::Field;
pub use fixed_form::{FixedFields, fields_fixed};
pub use free_form::{FreeFields, fields_free};
pub use numbers::{NumberFault, number};
pub use text_lines::{LineScan, TextLine, lines};
