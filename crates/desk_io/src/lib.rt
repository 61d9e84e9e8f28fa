//! The desk of a run: where it takes its inputs, puts its outputs and says its report.
#![tactic(auto)]

mod channel;
mod desk;
mod fault;
mod memory;
mod real;
mod short_name;
mod sure;
mod transfer;
mod unread;

pub use desk::{Call, Desk, DeskStop, Failed};
pub use memory::MemDesk;
pub use real::RealDesk;
pub use sure::SureDesk;
