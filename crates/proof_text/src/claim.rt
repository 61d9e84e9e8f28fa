//! What a proof text claims, and the records that it is made of.
use farkas_rows::Line;
use proof_tree::Cut;
use spaces::{Original, Vect};

/// What a proof text claims of a model.
#[derive(Debug, Drop)]
pub enum Claim {
    /// There is no point.
    Infeasible,
    /// This point is best.
    Optimal(Vect<Original>),
    /// Nothing: the search was not finished.
    Open,
}

/// What a proof text says of one node, without its children.
#[derive(Clone, Copy, Debug, Drop)]
pub enum Record<'a> {
    /// The node that the line closes.
    Close(&'a Line),
    /// The node that is split.
    Split(&'a Cut),
    /// So many neighbours that were not worked.
    Run(i128),
}
