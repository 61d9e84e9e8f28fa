//! The candidates for the direction of a node: of those that are at most as wide as each free column the ones with the fewest
//! slices.
use crate::directions::ends::{Candidate, measured};
use crate::directions::seen::Seen;
use crate::directions::spread::{least_width, parts_of, values_of};
use crate::directions::thin::is_small;
use crate::halt::{Halt, passed_over};
use frac128::Frac;
use range_dict::RangeDict;
use spaces::Form;
use std::alloc::Global;

/// How many candidates of one count are kept.
const MOST_KEPT: usize = 256;

/// The best candidates so far.
#[derive(Debug, Drop)]
pub(crate) struct Candidates {
    /// The least width of a free column, where one is known.
    limit: Option<Frac>,
    /// The free columns of this width.
    thinnest: Vec<Candidate>,
    /// Candidates that have as many slices, the fewest.
    pub(crate) best: Vec<Candidate>,
    /// The programs of some free column leave 64 bits.
    pub(crate) is_blurred: bool,
}

impl Candidates {
    pub(crate) fn new(alloc: Global) -> Candidates {
        Candidates {
            limit: None,
            thinnest: Vec::new(alloc),
            best: Vec::new(alloc),
            is_blurred: false,
        }
    }

    /// How many slices the best ones have, where there are some.
    pub(crate) fn count(&self) -> Option<i128> {
        Some(self.best.first()?.direction.count)
    }

    /// Whether no candidate can be better.
    pub(crate) fn is_settled(&self) -> bool {
        match self.count() {
            Some(count) => count <= 0,
            None => false,
        }
    }

    /// The least width of a free column in parts, where one is known.
    pub(crate) fn limit_parts(&self) -> Option<i128> {
        self.limit.as_ref().map(parts_of)
    }

    /// Whether a form with these values at points, as `values_of` has them, is wider than some free column.
    pub(crate) fn is_too_wide(&self, values: &[i128]) -> bool {
        match (self.limit_parts(), least_width(values)) {
            (Some(limit), Some(width)) => width > limit,
            _ => false,
        }
    }

    /// Whether the points that were seen show that a form is wider than some free column.
    pub(crate) fn is_shown_wide(
        &self,
        alloc: Global,
        seen: &Seen,
        form: &[i128],
    ) -> Result<bool, Halt> {
        Ok(match values_of(alloc, seen, form)? {
            Some(values) => self.is_too_wide(&values),
            None => false,
        })
    }

    /// Takes the width of a free column.
    pub(crate) fn take_column(&mut self, alloc: Global, column: Candidate) -> Result<(), Halt> {
        let Some(width) = column.width else {
            self.is_blurred = true;
            return Ok(());
        };
        if let Some(limit) = self.limit {
            if width > limit {
                return Ok(());
            }
            if width < limit {
                self.thinnest = Vec::new(alloc);
            }
        }
        self.limit = Some(width);
        self.thinnest.push(column)?;
        Ok(())
    }

    /// Takes a candidate, where none has fewer slices.
    pub(crate) fn take(&mut self, alloc: Global, other: Candidate) -> Result<(), Halt> {
        if let Some(count) = self.count() {
            if other.direction.count > count {
                return Ok(());
            }
            if other.direction.count < count {
                self.best = Vec::new(alloc);
            }
        }
        if self.best.len() < MOST_KEPT {
            self.best.push(other)?;
        }
        Ok(())
    }

    /// Takes the thinnest free columns among the candidates.
    pub(crate) fn take_thinnest(&mut self, alloc: Global) -> Result<(), Halt> {
        for _column in 0..self.thinnest.len() {
            if let Some(column) = self.thinnest.pop() {
                self.take(alloc, column)?;
            }
        }
        Ok(())
    }

    /// Whether a form of this width is at most as wide as each free column that was measured.
    fn is_thin(&self, width: Option<Frac>) -> bool {
        match (self.limit, width) {
            (Some(limit), Some(width)) => width <= limit,
            (limit, _) => limit.is_none(),
        }
    }

    /// Takes a form, where it is at most as wide as each free column that was measured and none has fewer slices.
    pub(crate) fn take_thin(&mut self, alloc: Global, candidate: Candidate) -> Result<(), Halt> {
        if self.is_thin(candidate.width) {
            self.take(alloc, candidate)
        } else {
            Ok(())
        }
    }

    /// Measures a free column, made primitive, where the points that were seen do not show that others are thinner.
    pub(crate) fn weigh_column(
        &mut self,
        alloc: Global,
        dict: &mut RangeDict,
        seen: &mut Seen,
        form: &[i128],
    ) -> Result<(), Halt> {
        if is_small(form) {
            if self.is_shown_wide(alloc, seen, form)? {
                return Ok(());
            }
            if let Some(column) = tried(alloc, dict, seen, form)? {
                return self.take_column(alloc, column);
            }
        }
        self.is_blurred = true;
        Ok(())
    }

    /// Measures a form, where the points that were seen do not show that it is wider than some free column or has more slices
    /// than another candidate, and takes it where it is neither.
    pub(crate) fn weigh(
        &mut self,
        alloc: Global,
        dict: &mut RangeDict,
        seen: &mut Seen,
        form: &[i128],
    ) -> Result<(), Halt> {
        if !is_small(form) || self.is_shown_wide(alloc, seen, form)? {
            return Ok(());
        }
        if let (Some(count), Some(least)) = (self.count(), seen.least_count(form))
            && least > count
        {
            return Ok(());
        }
        match tried(alloc, dict, seen, form)? {
            Some(candidate) => self.take_thin(alloc, candidate),
            None => Ok(()),
        }
    }
}

/// A form with its ends; none where its programs leave 64 bits, and then the dictionary stays.
pub(crate) fn tried(
    alloc: Global,
    dict: &mut RangeDict,
    seen: &mut Seen,
    form: &[i128],
) -> Result<Option<Candidate>, Halt> {
    let form = Form::of(form.to_vec(alloc)?);
    let mut trial = dict.copied(alloc)?;
    let found = passed_over(measured(alloc, &mut trial, seen, form).map(Some))?;
    if found.is_some() {
        *dict = trial;
    }
    Ok(found)
}
