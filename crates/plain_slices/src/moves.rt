//! The move of a node that is split by single columns.
ghost use Rattle.std.specs.Prelude.{◌≡◌, ◌+ℤ◌, ◌≤ℤ◌, pos, ℤ, ℕ, ◌^◌, ◌<◌, ◌≤◌, false, length, Option, All, IsTrue, IfSome, IfNone, IfOk};
ghost use Rattle.whole_rows.specs.WholeRows.{bounds_at, span};
ghost use Rattle.whole_rows.specs.Ends.{lows};
ghost use Rattle.farkas_rows.specs.Inequalities.{unit};
ghost use Rattle.farkas_rows.specs.Refutes.{HasForms};
ghost use Rattle.proof_tree.specs.declared.tree.Mark.TheVariants.{Plain};
ghost use Rattle.proof_tree.specs.Trees.{IsShort, IsOfSize};
ghost use Rattle.proof_tree.specs.Moves.{SplitsUnder};
ghost use Rattle.plain_slices.specs.Nodes.{source_at};
ghost use Rattle.plain_slices.specs.PlainMoves.{IsPlainAnswer};

use crate::lines::line_of_pair;
use crate::node::{Node, Source};
use farkas_rows::Path;
use proof_tree::{Cut, Mark, Move};
use sequence::NoMemory;
use spaces::{Form, Vect};
use std::alloc::Global;
use whole_rows::{Bounds, DenseRows};

/// The move of the node of this path, where the best point that is known has the cut value `best`, or none is known.
///
/// The node is closed where the bounds of a column cross, or where within the box that the slices of single columns leave some
/// side of a row, side of a slice or the cut cannot be met. Else it is split on the first column that no slice fixes. Where each
/// column is fixed, its point is answered. It takes memory for the narrowed box, the lines, a split's form and a point alone.
pub fn plain_move(
    alloc: Global,
    rows: &DenseRows,
    path: &Path,
    best: Option<i128>,
) -> Result<Move, NoMemory>
    requires short { IsShort rows.now path.now }
    requires forms { HasForms (length rows.now.box) path.now }
    requires light { All (λ slice. span slice.form rows.now.box ≤ 2 ^ 96) path.now }
    requires values { All (λ slice. IsOfSize (2 ^ 98) slice.beta) path.now }
    requires best { IfSome best (IsOfSize (2 ^ 97)) }
    ensures { IfOk result (IsPlainAnswer rows.now path.now best) }
{
    let node = Node::of(alloc, rows, path)?;
    if let Some(line) = node.refute(alloc, best)? {
        return Ok(Move::Close(line));
    }
    match first_free(&node.sources) {
        Some(column) => {
            let cut = node.split(alloc, column)?;
            Ok(Move::Split(cut))
        }
        None => {
            let values = lows_of(alloc, &node.bounds)?;
            Ok(Move::Point(Vect::of(values)))
        }
    }
}

/// The first column that no slice fixes.
fn first_free(sources: &[Source]) -> Option<usize>
    ensures within { IfSome result (λ column. column < length sources.now) }
    ensures free { IfSome result (λ column. (source_at sources.now column).is_fixed ≡ false) }
    ensures first { IfSome result (λ column. (other : ℕ) → other < column → IsTrue (source_at sources.now other).is_fixed) }
    ensures none { IfNone result ((column : ℕ) → column < length sources.now → IsTrue (source_at sources.now column).is_fixed) }
{
    for column in 0..sources.len() {
        if !sources[column].is_fixed {
            return Some(column);
        }
    }
    None
}

/// The least values of the columns.
fn lows_of(alloc: Global, bounds: &[Bounds]) -> Result<Vec<i128>, NoMemory>
    ensures { IfOk result (λ values. values.items ≡ lows bounds.now) }
{
    let values = bounds.iter().map(|b| b.low).collect(alloc)?;
    Ok(values)
}

/// The form that is one column's value.
fn unit(alloc: Global, columns: usize, column: usize) -> Result<Vec<i128>, NoMemory>
    requires { column < columns }
    ensures { IfOk result (λ form. form.items ≡ unit columns column) }
{
    let mut form = vec![in alloc; 0; columns]?;
    form[column] = 1;
    Ok(form)
}

impl Node<'_> {
    ghost use Rattle.plain_slices.specs.NodeViews.{IsNode};

    /// The split of a column from its lower bound to its upper bound.
    fn split(&self, alloc: Global, column: usize) -> Result<Cut, NoMemory>
        requires short { IsShort self.now.rows.now self.now.path.now }
        requires column { column < length self.now.rows.now.box }
        requires ordered { (bounds_at self.now.rows.now column).low ≤ℤ (bounds_at self.now.rows.now column).high }
        ensures form { IfOk result (λ cut. cut.form ≡ unit (length self.now.rows.now.box) column) }
        ensures lo { IfOk result (λ cut. cut.lo ≡ (bounds_at self.now.rows.now column).low) }
        ensures last { IfOk result (λ cut. cut.lo +ℤ cut.count ≡ (bounds_at self.now.rows.now column).high +ℤ pos 1) }
        ensures mark { IfOk result (λ cut. cut.mark ≡ Plain) }
        ensures splits { IfOk result (λ cut. (best : Option ℤ) → SplitsUnder self.now.rows.now best self.now.path.now cut) }
    {
        let rows = self.rows;
        let bound = 2 * (rows.rows() + column) as u32;
        let end = 2 * (rows.rows() + rows.columns() + self.path.items().len()) as u32;
        let low = rows.box_low(column);
        let high = rows.box_high(column);
        let form = unit(alloc, rows.columns(), column)?;
        let below = line_of_pair(alloc, end, bound + 1)?;
        let above = line_of_pair(alloc, bound, end)?;
        Ok(Cut {
            form: Form::of(form),
            lo: low,
            count: high - low + 1,
            below,
            above,
            mark: Mark::Plain,
        })
    }
}
