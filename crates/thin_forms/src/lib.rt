//! Directions of a region: a form that is nearly as thin as any and as thin as each free column, chosen by exact widths.
#![tactic(auto)]

mod answer;
mod choice;
mod parts;

pub use answer::{ThinForm, ThinFormStop};
pub use choice::thinnest;
pub use parts::primitive_part;
