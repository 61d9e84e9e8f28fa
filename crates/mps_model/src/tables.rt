//! What the lines of each section said so far.

pub(crate) mod bounds;
pub(crate) mod columns;
pub(crate) mod factors;
pub(crate) mod names;
pub(crate) mod row_kind;
pub(crate) mod rows;
pub(crate) mod sides;
pub(crate) mod text_tables;
