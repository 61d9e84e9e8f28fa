//! What a line is made of.
use sequence::Sequence;
use spaces::{Form, Original};

/// The inequality of this number, so many times.
#[derive(Clone, Copy, Debug, PartialEq, Eq, Drop)]
pub struct Use {
    pub index: u32,
    pub times: i128,
}

/// The cut with this value, so many times: the costs come to at most `value` less 1.
#[derive(Clone, Copy, Debug, PartialEq, Eq, Drop)]
pub struct CutUse {
    pub value: i128,
    pub times: i128,
}

/// Inequalities with their multipliers, in rising order of number.
pub type Uses = Sequence<Use>;

/// A combination of inequalities: of the cut, where it is used, and of those that `items` number.
#[derive(Debug, Drop)]
pub struct Line {
    pub cut: Option<CutUse>,
    pub items: Uses,
}

/// The side of a split on which a node's part lies that has no slice: the form is below `lo`, or at least `from`.
#[derive(Clone, Copy, Debug, Drop)]
pub enum End<'a> {
    Absent,
    Below {
        form: &'a Form<Original>,
        lo: i128,
    },
    Above {
        form: &'a Form<Original>,
        from: i128,
    },
}

/// The weight of a line, or that it is above 2 to the power 126.
#[derive(Clone, Copy, Debug, PartialEq, Eq, Drop)]
pub enum Weight {
    Within(i128),
    Above,
}
