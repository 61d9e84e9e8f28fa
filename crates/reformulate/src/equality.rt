//! Linear equalities over the work columns.
use sequence::Sequence;
use spaces::{Form, Work};

/// An equality in whole numbers: the form, which has one factor for each work column, has the value `side`.
#[derive(Debug, Drop)]
pub struct Equality {
    pub form: Form<Work>,
    pub side: i128,
}

/// Equalities in order.
pub type Equalities = Sequence<Equality>;
