//! Generalised basis reduction: a basis of the whole forms whose first form is thin on a polytope.
#![tactic(auto)]

mod answer;
mod basis;
mod halt;
mod multiples;
mod numbers;
mod products;
mod reduction;

pub use answer::{Gauges, ThinBasis, ThinExcuse, ThinStop};
pub use basis::thin;
