//! Whether a node is shut, and the line that closes it then.
ghost use Rattle.std.specs.Prelude.{◌≡◌, ℤ, pos, ◌+ℤ◌, ◌-ℤ◌, ◌≤ℤ◌, ◌<ℤ◌, ℕ, ◌^◌, ◌<◌, ◌≤◌, length, Option, Some, None, All, Any, IfSome, IfNone, IfOk, MatchOption};
ghost use Rattle.std.specs.Option.{IsSomeAnd};
ghost use Rattle.whole_rows.specs.WholeRows.{span};
ghost use Rattle.whole_rows.specs.declared.ends.End.TheVariants.{Least};
ghost use Rattle.whole_rows.specs.Ends.{sum_at, ReachesSides};
ghost use Rattle.farkas_rows.specs.Inequalities.{cut_inequality};
ghost use Rattle.farkas_rows.specs.Refutes.{Refutes};
ghost use Rattle.proof_tree.specs.Trees.{IsOfSize};
ghost use Rattle.proof_tree.specs.Moves.{ClosesUnder};
ghost use Rattle.plain_slices.specs.Shut.{CannotMeet, IsShutByRow, IsShutBySlice, Shut};
ghost use Rattle.plain_slices.specs.Nodes.{narrowed_at, IsOpenBox, IsPathWithin, IsMeetable};
ghost use Rattle.plain_slices.specs.Sides.{side_value, side_inequality, HasSides};
ghost use Rattle.plain_slices.specs.declared.side.Side.{Side};

use crate::lines::line_of_pair;
use crate::node::Node;
use crate::side::side_out_of_reach;
use farkas_rows::Line;
use sequence::NoMemory;
use std::alloc::Global;
use whole_rows::{Bounds, End};

/// The first column whose bounds cross.
fn crossing(bounds: &[Bounds]) -> Option<usize>
    ensures some { IfSome result (λ column. (column < length bounds.now) × ((narrowed_at bounds.now column).high <ℤ (narrowed_at bounds.now column).low)) }
    ensures none { IfNone result (IsOpenBox bounds.now) }
{
    for column in 0..bounds.len() {
        if bounds[column].high < bounds[column].low {
            return Some(column);
        }
    }
    None
}

impl Node<'_> {
    ghost use Rattle.plain_slices.specs.NodeViews.{IsNode};

    /// The line of a side of the form that no sum within the narrowed box reaches. `number` is the number of the upper side.
    fn line_out_of_reach(
        &self,
        alloc: Global,
        number: u32,
        form: &[i128],
        low: Option<i128>,
        high: Option<i128>,
    ) -> Result<Option<Line>, NoMemory>
        requires node { IsNode self.now }
        requires open_box { IsOpenBox self.now.bounds.items }
        requires dense { length form.now ≡ length self.now.rows.now.box }
        requires light { span form.now self.now.rows.now.box ≤ 2 ^ 96 }
        requires number { number ≤ 2 ^ 31 }
        requires sides { HasSides self.now.rows.now self.now.path.now number form.now low high }
        ensures none { IfOk result (λ found. IfNone found (ReachesSides form.now low high self.now.bounds.items)) }
        ensures some { IfOk result (λ found. IfSome found (λ line. (side : Side) × IsSomeAnd (side_value side low high) (λ value. CannotMeet self.now.rows.now self.now.path.now (side_inequality side form.now value)))) }
        ensures cut { IfOk result (λ found. IfSome found (λ line. line.cut ≡ None)) }
        ensures refutes { IfOk result (λ found. IfSome found (Refutes self.now.rows.now self.now.path.now None)) }
    {
        let Some(side) = side_out_of_reach(form, low, high, &self.bounds) else {
            return Ok(None);
        };
        let line = self.line_of_side(alloc, side.number(number), form, side)?;
        Ok(Some(line))
    }

    /// The line of the first row of which a side is out of reach.
    fn line_of_rows(&self, alloc: Global) -> Result<Option<Line>, NoMemory>
        requires node { IsNode self.now }
        requires open_box { IsOpenBox self.now.bounds.items }
        ensures none { IfOk result (λ found. IfNone found (All (λ row. ReachesSides row.factors row.low row.high self.now.bounds.items) self.now.rows.now.rows)) }
        ensures some { IfOk result (λ found. IfSome found (λ line. Any (IsShutByRow self.now.rows.now self.now.path.now) self.now.rows.now.rows)) }
        ensures cut { IfOk result (λ found. IfSome found (λ line. line.cut ≡ None)) }
        ensures refutes { IfOk result (λ found. IfSome found (Refutes self.now.rows.now self.now.path.now None)) }
    {
        for i in 0..self.rows.rows() {
            let form = self.rows.row(i);
            let low = self.rows.low(i);
            let high = self.rows.high(i);
            if let Some(line) = self.line_out_of_reach(alloc, 2 * i as u32, form, low, high)? {
                return Ok(Some(line));
            }
        }
        Ok(None)
    }

    /// The line of the first slice of which a side is out of reach.
    fn line_of_slices(&self, alloc: Global) -> Result<Option<Line>, NoMemory>
        requires node { IsNode self.now }
        requires open_box { IsOpenBox self.now.bounds.items }
        requires path { IsPathWithin self.now.rows.now self.now.path.now }
        ensures none { IfOk result (λ found. IfNone found (All (λ slice. ReachesSides slice.form (Some slice.beta) (Some slice.beta) self.now.bounds.items) self.now.path.now)) }
        ensures some { IfOk result (λ found. IfSome found (λ line. Any (IsShutBySlice self.now.rows.now self.now.path.now) self.now.path.now)) }
        ensures cut { IfOk result (λ found. IfSome found (λ line. line.cut ≡ None)) }
        ensures refutes { IfOk result (λ found. IfSome found (Refutes self.now.rows.now self.now.path.now None)) }
    {
        let path = self.path.items();
        for e in 0..path.len() {
            let number = (2 * (self.rows.rows() + self.rows.columns() + e)) as u32;
            let slice = &path[e];
            let form = slice.form.items();
            let side = Some(slice.beta);
            if let Some(line) = self.line_out_of_reach(alloc, number, form, side, side)? {
                return Ok(Some(line));
            }
        }
        Ok(None)
    }

    /// The line of the cut with the best value, where no sum of the costs within the narrowed box is below that value.
    fn line_of_best(&self, alloc: Global, best: Option<i128>) -> Result<Option<Line>, NoMemory>
        requires node { IsNode self.now }
        requires open_box { IsOpenBox self.now.bounds.items }
        requires best { IfSome best (IsOfSize (2 ^ 97)) }
        ensures none { IfOk result (λ found. IfNone found (IfSome best (λ value. sum_at Least self.now.rows.now.cost self.now.bounds.items <ℤ value))) }
        ensures some { IfOk result (λ found. IfSome found (λ line. IsSomeAnd best (λ value. CannotMeet self.now.rows.now self.now.path.now (cut_inequality self.now.rows.now value)))) }
        ensures cut { IfOk result (λ found. IfSome found (λ line. IfSome line.cut (λ cut. best ≡ Some cut.value))) }
        ensures refutes { IfOk result (λ found. IfSome found (Refutes self.now.rows.now self.now.path.now None)) }
    {
        let Some(value) = best else {
            return Ok(None);
        };
        let least = End::Least.sum(self.rows.cost(), &self.bounds);
        if least < value {
            return Ok(None);
        }
        let line = self.line_of_cut(alloc, value)?;
        Ok(Some(line))
    }

    /// The line of the two bounds of the first column at which those of the narrowed box cross.
    fn line_of_crossing(&self, alloc: Global) -> Result<Option<Line>, NoMemory>
        requires node { IsNode self.now }
        ensures none { IfOk result (λ found. IfNone found (IsOpenBox self.now.bounds.items)) }
        ensures some { IfOk result (λ found. IfSome found (λ line. (best : Option ℤ) → Shut self.now.rows.now self.now.path.now best)) }
        ensures cut { IfOk result (λ found. IfSome found (λ line. line.cut ≡ None)) }
        ensures refutes { IfOk result (λ found. IfSome found (Refutes self.now.rows.now self.now.path.now None)) }
    {
        let Some(column) = crossing(&self.bounds) else {
            return Ok(None);
        };
        let source = self.sources[column];
        let line = line_of_pair(alloc, source.above, source.below)?;
        Ok(Some(line))
    }

    /// The line that closes the node, where it is shut.
    pub(crate) fn refute(&self, alloc: Global, best: Option<i128>) -> Result<Option<Line>, NoMemory>
        requires node { IsNode self.now }
        requires path { IsPathWithin self.now.rows.now self.now.path.now }
        requires best { IfSome best (IsOfSize (2 ^ 97)) }
        ensures none { IfOk result (λ found. IfNone found (IsMeetable self.now.rows.now self.now.path.now best self.now.bounds.items)) }
        ensures shut { IfOk result (λ found. IfSome found (λ line. Shut self.now.rows.now self.now.path.now best)) }
        ensures closes { IfOk result (λ found. IfSome found (ClosesUnder self.now.rows.now best self.now.path.now None)) }
    {
        if let Some(line) = self.line_of_crossing(alloc)? {
            return Ok(Some(line));
        }
        if let Some(line) = self.line_of_rows(alloc)? {
            return Ok(Some(line));
        }
        if let Some(line) = self.line_of_slices(alloc)? {
            return Ok(Some(line));
        }
        self.line_of_best(alloc, best)
    }
}
