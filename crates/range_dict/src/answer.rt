//! What a dictionary answers: points and lines, which are data and nothing more until they are checked.
ghost use Rattle.std.specs.Prelude.{◌≡◌, ◌<◌, ◌≤◌, vec_len};

use crate::dict::RangeDict;
use crate::number::product;
use crate::range::Variable;
use crate::steps::Aim;
use crate::stop::RangeStop;
use farkas_rows::{CutUse, Line, Use, Uses};
use std::alloc::Global;

/// The value of each column, as a numerator over one denominator. `NodePoint::of` of the crate `node_point` tells whether it is
/// a point of the node.
#[derive(Debug, Drop)]
pub struct Vertex {
    pub numerators: Vec<i128>,
    pub denominator: i128,
}

/// Whether a node has a rational point.
#[derive(Debug, Drop)]
pub enum Met {
    Point(Vertex),
    /// `refutes` of the crate `farkas_rows` tells whether the line shows that there is none.
    Empty(Line),
}

/// The least or the greatest value of a form.
#[derive(Debug, Drop)]
pub struct Extreme {
    /// Where the form has this value.
    pub vertex: Vertex,
    /// The value times the vertex's denominator.
    pub value: i128,
    /// The line that refutes the end below a least value, or above a greatest one. Its last item is the end's inequality.
    pub line: Line,
}

/// A multiplier of a side of the variable: the upper side where it is above 0, and else the lower side.
fn put(line: &mut [i64], place: Option<usize>, times: i64) -> Result<(), RangeStop> {
    let Some(place) = place else {
        return Err(RangeStop::Wide);
    };
    match line.get_mut(place) {
        Some(item) => {
            *item = times;
            Ok(())
        }
        None => Err(RangeStop::Wide),
    }
}

/// The use of a side of the variable with this number.
fn use_of(number: usize, times: i64) -> Result<Use, RangeStop> {
    let number = u32::try_from(number).ok().ok_or(RangeStop::Wide)?;
    let upper = number.checked_mul(2).ok_or(RangeStop::Wide)?;
    let index = if times < 0 {
        upper.checked_add(1).ok_or(RangeStop::Wide)?
    } else {
        upper
    };
    Ok(Use {
        index,
        times: i128::from(times.unsigned_abs()),
    })
}

/// The items of the multipliers that are not 0, in rising order of number.
fn items_of(alloc: Global, numbered: &[i64]) -> Result<Uses, RangeStop> {
    let mut items = Uses::new(alloc);
    for i in 0..numbered.len() {
        let times = numbered[i];
        if times != 0 {
            items.push(use_of(i, times)?)?;
        }
    }
    Ok(items)
}

impl RangeDict {
    /// The number of a variable among the rows, the columns and the slices; the cost has none.
    fn number_of(&self, variable: Variable) -> Option<usize> {
        match variable {
            Variable::Cost => None,
            Variable::Row(i) => Some(i as usize),
            Variable::Column(j) => self.rows.checked_add(j as usize),
            Variable::Slice(e) => self.first_slice()?.checked_add(e as usize),
        }
    }

    /// The number of the first slice.
    fn first_slice(&self) -> Option<usize> {
        self.rows.checked_add(self.outside.len())
    }

    /// The number of the end, which follows the slices.
    fn end_number(&self) -> Option<usize> {
        self.first_slice()?.checked_add(self.slices as usize)
    }

    /// The value of each column, where the variables outside stand.
    pub(crate) fn vertex(&self, alloc: Global) -> Result<Vertex, RangeStop> {
        let divisor = self.divisor.value();
        let last = self.outside.len();
        let mut numerators = vec![in alloc; 0; last]?;
        for outside in &self.outside {
            if let Variable::Column(j) = outside.range.variable
                && let Some(item) = numerators.get_mut(j as usize)
            {
                *item = product(outside.at, divisor);
            }
        }
        for i in 0..self.basic.len() {
            if let Variable::Column(j) = self.basic[i].variable
                && let Some(item) = numerators.get_mut(j as usize)
            {
                *item = i128::from(self.entry(i, last));
            }
        }
        Ok(Vertex {
            numerators,
            denominator: i128::from(divisor),
        })
    }

    /// The line of an aim that no variable serves: the sides at which the variables outside stand, and that which the aim's row
    /// has passed, or, for the form, the end.
    pub(crate) fn line(&self, alloc: Global, aim: Aim) -> Result<Line, RangeStop>
        requires { aim.row ≤ vec_len self.now.basic }
    {
        let end = self.end_number().ok_or(RangeStop::Wide)?;
        let size = end.checked_add(1).ok_or(RangeStop::Wide)?;
        let mut numbered = vec![in alloc; 0; size]?;
        let mut cost = 0;
        for j in 0..self.outside.len() {
            let entry = self.entry(aim.row, j);
            let times = signed(entry, aim.rises)?;
            let variable = self.outside[j].range.variable;
            if variable == Variable::Cost {
                cost = times;
            } else {
                put(&mut numbered, self.number_of(variable), times)?;
            }
        }
        let own = self.divisor.value();
        match self.basic.get(aim.row) {
            None => put(&mut numbered, Some(end), own)?,
            Some(range) if range.variable == Variable::Cost => cost = own,
            Some(range) => {
                let times = signed(own, !aim.rises)?;
                put(&mut numbered, self.number_of(range.variable), times)?;
            }
        }
        Ok(Line {
            cut: self.cut_use(cost)?,
            items: items_of(alloc, &numbered)?,
        })
    }

    /// The use of the cut, so many times, where that is not 0.
    fn cut_use(&self, times: i64) -> Result<Option<CutUse>, RangeStop> {
        if times == 0 {
            return Ok(None);
        }
        match self.cut {
            Some(value) if times > 0 => Ok(Some(CutUse {
                value,
                times: i128::from(times),
            })),
            _ => Err(RangeStop::Wide),
        }
    }
}

/// The number, or its negation.
fn signed(number: i64, is_kept: bool) -> Result<i64, RangeStop> {
    if is_kept {
        Ok(number)
    } else {
        number.checked_neg().ok_or(RangeStop::Wide)
    }
}
