//! The values that a form takes at a node, and why it takes no others.
use crate::directions::seen::{Seen, value_at};
use crate::halt::Halt;
use crate::numbers::quotient::{ceil, floor};
use farkas_rows::Line;
use frac128::Frac;
use range_dict::{Extreme, RangeDict, Vertex};
use spaces::{Form, Original};
use std::alloc::Global;

/// A form with the whole numbers between its least and its greatest value at a node: `count` of them from `lo` on.
#[derive(Debug, Drop)]
pub struct Direction {
    pub form: Form<Original>,
    pub lo: i128,
    pub count: i128,
    /// The line that refutes the end below `lo`.
    pub below: Line,
    /// The line that refutes the end above the last of the numbers.
    pub above: Line,
}

impl Direction {
    /// The slices in the order in which a vertex is nearer to the first one.
    pub(crate) fn from_vertex(self, alloc: Global, vertex: &Vertex) -> Result<Direction, Halt> {
        if self.count > 1 && self.is_behind(vertex).ok_or(Halt::GivesUp)? {
            self.turned(alloc)
        } else {
            Ok(self)
        }
    }

    /// Whether a vertex is nearer to the last slice than to the first one.
    fn is_behind(&self, vertex: &Vertex) -> Option<bool> {
        let value = value_at(self.form.items(), vertex)?;
        let ends = self.last()?.checked_add(self.lo)?;
        Some(value.checked_mul(2)? > ends.checked_mul(vertex.denominator)?)
    }

    /// The value of the last slice.
    pub(crate) fn last(&self) -> Option<i128> {
        self.lo.checked_add(self.count)?.checked_sub(1)
    }

    /// The slices in the other order, which are those of the negated form.
    fn turned(self, alloc: Global) -> Result<Direction, Halt> {
        let lo = self.last().and_then(|last| last.checked_neg());
        let lo = lo.ok_or(Halt::GivesUp)?;
        let mut form = self.form.items().to_vec(alloc)?;
        negate(&mut form).ok_or(Halt::GivesUp)?;
        Ok(Direction {
            form: Form::of(form),
            lo,
            count: self.count,
            below: self.above,
            above: self.below,
        })
    }
}

/// Turns the sign of each factor.
fn negate(factors: &mut [i128]) -> Option<()> {
    for i in 0..factors.len() {
        factors[i] = factors[i].checked_neg()?;
    }
    Some(())
}

/// A direction with its width: the greatest less the least value at the rational points of the node; none where that leaves
/// 128 bits.
#[derive(Debug, Drop)]
pub(crate) struct Candidate {
    pub(crate) direction: Direction,
    pub(crate) width: Option<Frac>,
}

impl Candidate {
    /// Whether the form has more than one value.
    pub(crate) fn varies(&self) -> bool {
        match &self.width {
            Some(width) => width.num() > 0,
            None => false,
        }
    }
}

/// The difference of two extremes.
fn width_between(least: &Extreme, greatest: &Extreme) -> Option<Frac> {
    if least.vertex.denominator <= 0 || greatest.vertex.denominator <= 0 {
        return None;
    }
    let low = Frac::new(least.value, least.vertex.denominator).ok()?;
    let high = Frac::new(greatest.value, greatest.vertex.denominator).ok()?;
    high.sub(&low).ok()
}

/// Finds the ends of a form at the node of a dictionary that has a point. The points where it has them are kept.
pub(crate) fn measured(
    alloc: Global,
    dict: &mut RangeDict,
    seen: &mut Seen,
    form: Form<Original>,
) -> Result<Candidate, Halt> {
    let least = dict.least(alloc, form.items())?;
    let lo = ceil(least.value, least.vertex.denominator).ok_or(Halt::GivesUp)?;
    let greatest = dict.greatest(alloc, form.items())?;
    let last = floor(greatest.value, greatest.vertex.denominator).ok_or(Halt::GivesUp)?;
    let count = count_between(lo, last).ok_or(Halt::GivesUp)?;
    let width = width_between(&least, &greatest);
    seen.add(least.vertex)?;
    seen.add(greatest.vertex)?;
    let direction = Direction {
        form,
        lo,
        count,
        below: least.line,
        above: greatest.line,
    };
    Ok(Candidate { direction, width })
}

/// How many whole numbers there are from `lo` to `last`.
fn count_between(lo: i128, last: i128) -> Option<i128> {
    last.checked_sub(lo)?.checked_add(1)
}
