//! What a model text in the customary MPS formats means: the model that it states, or its first fault.
#![tactic(auto)]

mod examples;
mod fault;
mod layout;
mod layout_law;
mod line_stop;
mod lines;
mod model;
mod read_stop;
mod reader;
mod reading;
mod tables;

pub use examples::{
    faultless_columns, one_meaning, side_test_is_the_range, worked_bound_faults, worked_bounds,
    worked_column_faults, worked_fixed_faults, worked_integers, worked_layouts, worked_line_faults,
    worked_models, worked_objectives, worked_order, worked_row_faults, worked_section_faults,
    worked_side_faults, worked_sides, worked_whole_faults,
};
pub use fault::{FaultKind, TextFault};
pub use layout::Layout;
pub use layout_law::{fixed_reads_free, worked_free_readings};
pub use lines::bound_kind::BoundKind;
pub use lines::section::Section;
pub use read_stop::ReadStop;
pub use reading::read;
