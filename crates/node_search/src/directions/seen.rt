//! The points of a node that its programs have shown.
use crate::halt::Halt;
use crate::numbers::quotient::{ceil, floor};
use exact_vectors::dot_checked;
use range_dict::Vertex;
use std::alloc::Global;

/// Points of one node: for each the value of each column, as a numerator over the point's denominator.
#[derive(Debug, Drop)]
pub(crate) struct Seen {
    points: Vec<Vertex>,
}

/// The value of a form at a vertex, times its denominator, where all numbers on the way fit.
pub(crate) fn value_at(form: &[i128], vertex: &Vertex) -> Option<i128> {
    if form.len() == vertex.numerators.len() {
        dot_checked(form, &vertex.numerators)
    } else {
        None
    }
}

impl Seen {
    pub(crate) fn new(alloc: Global) -> Seen {
        Seen {
            points: Vec::new(alloc),
        }
    }

    /// Gives the points away.
    pub(crate) fn into_points(self) -> Vec<Vertex> {
        self.points
    }

    /// Lends the points.
    pub(crate) fn points(&self) -> &[Vertex] {
        &self.points
    }

    /// Keeps a further point.
    pub(crate) fn add(&mut self, vertex: Vertex) -> Result<(), Halt> {
        self.points.push(vertex)?;
        Ok(())
    }

    /// The point that was kept first.
    pub(crate) fn first(&self) -> Option<&Vertex> {
        self.points.first()
    }

    /// How many whole numbers lie between the values of a form at the points, at least, where all numbers on the way fit.
    pub(crate) fn least_count(&self, form: &[i128]) -> Option<i128> {
        let mut low = i128::MAX;
        let mut high = i128::MIN;
        for point in &self.points {
            let value = value_at(form, point)?;
            low = low.min(ceil(value, point.denominator)?);
            high = high.max(floor(value, point.denominator)?);
        }
        high.checked_sub(low)?.checked_add(1)
    }
}
