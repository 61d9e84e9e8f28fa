//! What is done at a root whose equalities have a gap.
use exact_nodes::Excuse;
use proof_tree::Cut;

/// What is done at a root whose equalities have a gap.
#[derive(Drop)]
pub enum GapMove {
    /// The split without a slice along the gap's form.
    Split(Cut),
    /// Why there is none: the form or a line is too heavy.
    Excused(Excuse),
}
