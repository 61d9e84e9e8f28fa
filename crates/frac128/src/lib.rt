//! Exact fractions of 128-bit numbers: a result is exact, or the answer is `Wide`.
//!
//! A `Frac` is in lowest terms, and both its numbers are at most 2^127 - 1 in size. Contracts see it as a
//! rational number of `exact_math`. `specs/Range.antt` says when a result leaves the range. No call takes memory.
//! Whole numbers, and terms of 63 bits, have short ways with the same contracts.
#![tactic(auto)]

mod euclid;
mod frac;
mod narrow;
mod order;

pub use euclid::{gcd, lcm};
pub use frac::Frac;
pub use narrow::Wide;
