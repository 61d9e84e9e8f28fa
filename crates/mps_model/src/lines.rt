//! What the lines of a text say: their kinds, their sections and their fields.

pub(crate) mod bound_kind;
pub(crate) mod data_fields;
pub(crate) mod data_line;
pub(crate) mod line_kind;
pub(crate) mod section;
pub(crate) mod section_line;
pub(crate) mod section_order;
pub(crate) mod six_fields;
