//! The width of the form of a split, read off the lines of its ends.
ghost use Rattle.std.specs.Prelude.{length, IfSome};
ghost use Rattle.farkas_rows.specs.Refutes.{HasForms};
ghost use Rattle.form_widths.specs.Widths.{IsBoundOn};
ghost use Rattle.node_point.specs.RationalPoints.{IsRationalPoint};
ghost use Rattle.proof_tree.specs.Moves.{SplitsUnder};

use crate::limits::margin;
use frac128::Frac;
use node_lines::Node;
use proof_tree::Cut;

/// The width of the form of a split at a node, as the lines of the two ends bound it; none where a line does not use its end, or
/// a number leaves 128 bits.
pub(crate) fn width_of(node: Node<'_>, cut: &Cut) -> Option<Frac>
    requires splits { SplitsUnder node.model.now node.cut node.path.now cut.now }
    requires forms { HasForms (length node.model.now.box) node.path.now }
    ensures { IfSome result (IsBoundOn (IsRationalPoint node.entry.model.now node.entry.path.now node.entry.cut) cut.now.form) }
{
    let _columns = node.model.columns();
    let low = cut.lo.checked_sub(1)?;
    let high = cut.lo.checked_add(cut.count)?;
    let below = margin(node.model, node.path, low, &cut.below)?;
    let above = margin(node.model, node.path, high.checked_neg()?, &cut.above)?;
    let most = Frac::whole(cut.count + 1);
    most.sub(&below).ok()?.sub(&above).ok()
}
