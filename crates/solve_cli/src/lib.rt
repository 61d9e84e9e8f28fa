//! The commands of the program over a desk.
#![tactic(auto)]

mod check;
mod counts;
mod file_name;
mod market_file;
mod program;
mod proof;
mod reply;
mod report;
mod search;
mod stated;
mod status;
mod take;
mod verdict_law;
mod words;
mod words_law;

pub use file_name::FileName;
pub use program::run;
pub use status::{Input, Status};
pub use verdict_law::one_status_is_given;
pub use words::{Command, WordsStop, read_words};
pub use words_law::command_is_spelled;
