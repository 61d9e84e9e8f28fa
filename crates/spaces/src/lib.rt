//! Vectors and linear forms, each of one space: values of one space are not taken for values of another.
#![tactic(auto)]

mod affine;
mod form;
mod grid;
mod map_stop;
mod multiple;
mod products;
mod space;
mod vect;

pub use affine::{Affine, Pulled};
pub use form::{Form, WideEntry};
pub use grid::Grid;
pub use map_stop::MapStop;
pub use space::{Kernel, Original, Space, Work};
pub use vect::Vect;
