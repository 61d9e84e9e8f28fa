//! Integer solutions of linear equalities, as the whole points of a space of their own dimension.
#![tactic(auto)]

mod basis;
mod equality;
mod frame;
mod framing;
mod gap;
mod gathering;
mod halt;
mod matrices;
mod miss;
mod outcome;
mod products;
mod quotient;
mod reducing;
mod remainder;
mod showing;
mod slicing;
mod taking;
mod whole_times;

pub use equality::{Equalities, Equality};
pub use frame::Frame;
pub use gap::{Gap, Times};
pub use outcome::{FrameExcuse, FrameStop, Framed};
