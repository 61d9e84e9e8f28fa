//! Programs over a dictionary, each of which starts where the last one ended.
ghost use Rattle.std.specs.Prelude.{◌≡◌, ◌<◌, ◌≤◌, vec_len};

use crate::answer::{Extreme, Met};
use crate::dict::RangeDict;
use crate::first::cost_range;
use crate::range::{Outside, Variable};
use crate::steps::Aim;
use crate::stop::RangeStop;
use std::alloc::Global;

/// How many steps one program takes at most.
const MOST_STEPS: usize = 10000;

/// After how many steps in a row that move nothing Bland's rule holds.
const PATIENCE: usize = 12;

impl RangeDict {
    /// Puts another cut in the place of the one that stands.
    pub fn set_cut(&mut self, value: i128) -> Result<(), RangeStop> {
        let range = cost_range(Some(value))?;
        self.cut = Some(value);
        for i in 0..self.basic.len() {
            if self.basic[i].variable == Variable::Cost {
                self.basic[i] = range;
                return Ok(());
            }
        }
        let Some(at) = range.high else {
            return Ok(());
        };
        for j in 0..self.outside.len() {
            if self.outside[j].range.variable == Variable::Cost {
                self.shift(j, at, true)?;
                self.outside[j] = Outside {
                    range,
                    at,
                    is_high: true,
                };
                return Ok(());
            }
        }
        Ok(())
    }

    /// Whether the node has a rational point. One row that is outside of its range is brought back at a time, and no row that
    /// is met is lost on the way.
    pub fn meet(&mut self, alloc: Global) -> Result<Met, RangeStop> {
        self.clear_form();
        let mut start = 0;
        let mut still = 0;
        for _step in 0..MOST_STEPS {
            let Some(aim) = self.violated_from(start) else {
                return Ok(Met::Point(self.vertex(alloc)?));
            };
            let Some(column) = self.entering(aim, still >= PATIENCE) else {
                return Ok(Met::Empty(self.line(alloc, aim)?));
            };
            still = self.advance(column, aim, still)?;
            start = aim.row;
        }
        Err(RangeStop::ManySteps)
    }

    /// The least value of a form, with a factor for each column, at the rational points of the node, after `meet` has found one.
    pub fn least(&mut self, alloc: Global, form: &[i128]) -> Result<Extreme, RangeStop> {
        self.optimise(alloc, form, false)
    }

    /// The greatest value of a form.
    pub fn greatest(&mut self, alloc: Global, form: &[i128]) -> Result<Extreme, RangeStop> {
        self.optimise(alloc, form, true)
    }

    /// Moves the form's value as far as it goes.
    fn optimise(
        &mut self,
        alloc: Global,
        form: &[i128],
        rises: bool,
    ) -> Result<Extreme, RangeStop> {
        let aim = Aim {
            row: self.basic.len(),
            rises,
        };
        self.set_form(alloc, form)?;
        let mut still = 0;
        for _step in 0..MOST_STEPS {
            let Some(column) = self.entering(aim, still >= PATIENCE) else {
                return self.extreme(alloc, aim);
            };
            still = self.advance(column, aim, still)?;
        }
        Err(RangeStop::ManySteps)
    }

    /// Takes the last form away, so that none of its entries can leave 64 bits.
    fn clear_form(&mut self)
        ensures rows { vec_len self.new.basic ≡ vec_len self.old.basic }
        ensures columns { vec_len self.new.outside ≡ vec_len self.old.outside }
    {
        self.table.row_mut(self.basic.len()).fill(0);
    }

    /// Writes a form into the last row.
    fn set_form(&mut self, alloc: Global, form: &[i128]) -> Result<(), RangeStop>
        ensures rows { vec_len self.new.basic ≡ vec_len self.old.basic }
        ensures columns { vec_len self.new.outside ≡ vec_len self.old.outside }
    {
        let mut row = vec![in alloc; 0; self.outside.len() + 1]?;
        self.express(form, &mut row)?;
        self.table.row_mut(self.basic.len()).copy_from_slice(&row);
        Ok(())
    }

    /// The answer of a form that goes no farther.
    fn extreme(&self, alloc: Global, aim: Aim) -> Result<Extreme, RangeStop>
        requires { aim.row ≤ vec_len self.now.basic }
    {
        Ok(Extreme {
            vertex: self.vertex(alloc)?,
            value: i128::from(self.entry(aim.row, self.outside.len())),
            line: self.line(alloc, aim)?,
        })
    }

    /// Moves the variable of a column as far as it goes. The answer is how many steps in a row have moved nothing.
    fn advance(&mut self, column: usize, aim: Aim, still: usize) -> Result<usize, RangeStop>
        requires { column < vec_len self.old.outside }
        ensures rows { vec_len self.new.basic ≡ vec_len self.old.basic }
        ensures columns { vec_len self.new.outside ≡ vec_len self.old.outside }
    {
        let Some(step) = self.farthest(column, aim, still >= PATIENCE) else {
            return Err(RangeStop::Wide);
        };
        self.take(column, step)?;
        if step.is_still() {
            Ok(still.saturating_add(1))
        } else {
            Ok(0)
        }
    }
}
