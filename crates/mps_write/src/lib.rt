//! Plain models, their canonical text in free form, and market split models.
#![tactic(auto)]

mod market_split;
mod plain;
mod sides;
mod writer;

pub use market_split::market;
pub use plain::is_plain;
pub use sequence::NoMemory;
pub use writer::{Text, write};
