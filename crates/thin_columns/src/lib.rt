//! The thinnest free column as a direction of a region, by exact programs on its system alone: the slacks of the inequalities show that no form is much thinner.
#![tactic(auto)]

mod columns;
mod slacks;
mod stop;

pub use columns::thin_column;
