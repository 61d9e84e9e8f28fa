//! Widths of forms on the rational points of a system.
#![tactic(auto)]

mod gauge;
mod pairs;
mod program;
mod widths;

pub use gauge::Gauge;
pub use widths::width;
