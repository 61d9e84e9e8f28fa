//! Proof texts: what is spelled by a claim and a tree, and the reading of it.
#![tactic(auto)]

mod claim;
mod heads;
mod items;
mod laws;
mod lines;
mod multipliers;
mod numbers;
mod print;
mod read;
mod shapes;
mod sides;
mod splits;
mod words;

pub use claim::{Claim, Record};
pub use items::{Factor, Item, read_between, read_factor, read_item};
pub use laws::one_reading;
pub use numbers::{read_number, read_size};
pub use print::{Text, print_head, print_record};
pub use read::{Proof, read_proof};
pub use sequence::NoMemory;
pub use shapes::{Pair, SplitWords, cut_pair, numbers_behind, pairs_behind, split_words};
pub use words::Words;
