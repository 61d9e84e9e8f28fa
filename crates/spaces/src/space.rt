//! The spaces in which a program stands on the way through the solver.

/// A space of vectors of whole numbers. It is only named, and no value of it is made.
pub trait Space: Drop {}

/// The columns of the model.
#[derive(Clone, Copy, Debug, PartialEq, Eq)]
pub struct Original;

/// The columns that are left after those of one value are taken out.
#[derive(Clone, Copy, Debug, PartialEq, Eq)]
pub struct Work;

/// The coordinates along the solutions of the equations.
#[derive(Clone, Copy, Debug, PartialEq, Eq)]
pub struct Kernel;

impl Space for Original {}

impl Space for Work {}

impl Space for Kernel {}
