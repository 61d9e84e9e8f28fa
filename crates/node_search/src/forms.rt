//! Forms that may be thin: those of a frame's coordinates and those of a root's rows, made short by equalities.

pub(crate) mod frame_forms;
pub(crate) mod row_forms;
pub(crate) mod short;
