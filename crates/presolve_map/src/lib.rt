//! Presolving: what is left of whole rows over a box once the columns of one value and the rows that the box cannot violate
//! are taken out, and the way back to all columns.
#![tactic(auto)]

mod columns;
mod laws;
mod lifting;
mod line;
mod outcome;
mod placing;
mod presolving;
mod reduce;
mod root;
mod sides;
mod work_rows;

pub use laws::needed_row_is_violated_within_the_box;
pub use lifting::lift_form;
pub use line::{WorkTimes, bound_of, lift_line};
pub use outcome::Presolved;
pub use presolving::presolve;
pub use work_rows::WorkRows;
