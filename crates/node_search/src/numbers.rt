//! Whole numbers: rows of factors, quotients, and numbers in turn around a place.

pub(crate) mod around;
pub(crate) mod factors;
pub(crate) mod quotient;
