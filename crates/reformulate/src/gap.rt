//! Gaps: why equalities have no integer solution.
use sequence::Sequence;
use spaces::{Form, Work};

/// Whole times of equalities, one number for each.
pub type Times = Sequence<i128>;

/// Whole times of equalities that show that they have no integer solution: on the left they give `divisor` times the form, and
/// on the right a number that the divisor, which is above 0, does not divide (Schrijver 1986, chapter 4).
///
/// So the value of the form, which is whole at whole points, would lie between two whole numbers. The greater one is `lo`,
/// brought to the nearer end of -2^97 to 2^97 where it is past it. The form has a factor for each work column.
#[derive(Debug, Drop)]
pub struct Gap {
    pub form: Form<Work>,
    pub lo: i128,
    pub times: Times,
    pub divisor: i128,
}
