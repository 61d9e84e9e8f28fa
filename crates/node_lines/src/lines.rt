//! The lines of a node from multipliers of its system.
ghost use Rattle.std.specs.Prelude.{◌≡◌, ◌^◌, ◌<ℤ◌, ℤ, pos, length, map, Option, None, IsErrOf, IfErr, IfOk, IfSome, OnOk};
ghost use Rattle.std.specs.List.{All};
ghost use Rattle.std.specs.Option.{IsSomeAnd};
ghost use Rattle.exact_math.specs.Rational.{◌≤ℚ◌};
ghost use Rattle.exact_math.specs.RationalRing.{rationals};
ghost use Rattle.exact_vectors.specs.Inequalities.{NotNegativeBy};
ghost use Rattle.lp_solve.specs.Certificates.{ShowsEmpty};
ghost use Rattle.farkas_rows.specs.Ends.{inequality_of};
ghost use Rattle.farkas_rows.specs.Inequalities.{Inequality};
ghost use Rattle.farkas_rows.specs.LeastLine.{IsLeastLine};
ghost use Rattle.farkas_rows.specs.Refutes.{HasForms, IsDense, line_weight};
ghost use Rattle.farkas_rows.specs.declared.line.Line.{Line};
ghost use Rattle.reformulate.specs.Substitutions.{dimension_of, IsShaped};
ghost use Rattle.whole_rows.specs.WholeRows.{IsWithinLimits};
ghost use Rattle.presolve_map.specs.LiftedLines.{IsLiftedLine, IsNodeOverKept};
ghost use Rattle.farkas_lift.specs.NodeLifting.{HasOneEach, lifted_limit, lifted_uses, system_form};
ghost use Rattle.proof_tree.specs.Moves.{ClosesUnder};
ghost use Rattle.node_lines.specs.Combinations.{AreOfNode, ComesOver, IsRefutation};
ghost use Rattle.node_lines.specs.NodeLines.{cut_multiplier, cut_part, end_use, HaltsWide, IsHeavyLine, LiftLeaves};
ghost use Rattle.node_lines.specs.NodeSystems.{system_limits, system_rows, IsFramedNode, IsPastEnd};
ghost use Rattle.node_lines.specs.declared.halt.LineHalt.TheVariants as halts;

use crate::halt::LineHalt;
use crate::node::Node;
use farkas_lift::lift;
use farkas_rows::{CutFrac, End, FracUse, Line, Path, from_fracs};
use frac128::Frac;
use presolve_map::{WorkTimes, lift_line};
use std::alloc::Global;
use whole_rows::DenseRows;

/// How many slices a path has at most whose multipliers are lifted.
const LONGEST_PATH: usize = 1 << 16;

/// The line that refutes the node, from multipliers that show its system empty: one for each inequality that `kernel_system`
/// gives for the cut of the node.
///
/// `Wide` comes exactly where a number leaves the range of `Frac` as the multipliers are carried back, and `Heavy` exactly where
/// the line weighs above 2 to the power 126.
pub fn empty_line<'a>(alloc: Global, node: &Node<'a>, weights: &[Frac]) -> Result<Line, LineHalt>
    requires node { IsFramedNode node.now.model.now node.now.work.now node.now.frame.now node.now.path.now }
    requires empty { ShowsEmpty (dimension_of node.now.frame.now) (system_rows node.now.frame.now node.now.work.now node.now.cut) (system_limits node.now.frame.now node.now.work.now node.now.cut) weights.now }
    ensures line { IfOk result (ClosesUnder node.now.model.now node.now.cut node.now.path.now None) }
    ensures in_range { OnOk result (¬ (LiftLeaves node.now.model.now node.now.work.now node.now.frame.now node.now.path.now weights.now)) }
    ensures wide { IsErrOf result halts.Wide → LiftLeaves node.now.model.now node.now.work.now node.now.frame.now node.now.path.now weights.now }
    ensures heavy { IsErrOf result halts.Heavy → IsHeavyLine node.now.model.now node.now.work.now node.now.frame.now node.now.path.now None node.now.cut weights.now }
{
    let times = lifted(alloc, node, weights)?;
    line_of(alloc, node.model, node.path, node.cut, &End::Absent, &times)
}

/// The line that refutes an end of a form at the node, from multipliers that show the least value of the form on its system: one
/// for each inequality that `kernel_system` gives for the cut of the node. For the lower end the form is that of the end, and for
/// the upper end its negative.
///
/// The errors come as those of `empty_line`.
pub fn end_line<'a, 'b>(
    alloc: Global,
    node: &Node<'a>,
    end: &'b End<'b>,
    weights: &[Frac],
) -> Result<Line, LineHalt>
    requires node { IsFramedNode node.now.model.now node.now.work.now node.now.frame.now node.now.path.now }
    requires past { IsSomeAnd (inequality_of end.now) (IsPastEnd node.now.model.now node.now.work.now node.now.frame.now node.now.cut weights.now) }
    ensures line { IfOk result (ClosesUnder node.now.model.now node.now.cut node.now.path.now (inequality_of end.now)) }
    ensures in_range { OnOk result (¬ (LiftLeaves node.now.model.now node.now.work.now node.now.frame.now node.now.path.now weights.now)) }
    ensures wide { IsErrOf result halts.Wide → LiftLeaves node.now.model.now node.now.work.now node.now.frame.now node.now.path.now weights.now }
    ensures heavy { IsErrOf result halts.Heavy → IsHeavyLine node.now.model.now node.now.work.now node.now.frame.now node.now.path.now (inequality_of end.now) node.now.cut weights.now }
{
    let mut times = lifted(alloc, node, weights)?;
    times.items.push(end_use(node)?)?;
    line_of(alloc, node.model, node.path, node.cut, end, &times)
}

/// The multipliers of the model's inequalities that those of a node's system become, with those of the bounds of removed columns.
fn lifted<'a>(alloc: Global, node: &Node<'a>, weights: &[Frac]) -> Result<WorkTimes, LineHalt>
    requires node { IsFramedNode node.now.model.now node.now.work.now node.now.frame.now node.now.path.now }
    requires one_each { HasOneEach node.now.work.now weights.now }
    requires not_negative { NotNegativeBy rationals ◌≤ℚ◌ weights.now }
    ensures cut { IfOk result (λ times. times.cut ≡ cut_multiplier node.now.work.now weights.now) }
    ensures line { IfOk result (λ times. IsLiftedLine node.now.model.now times.cut (lifted_uses node.now.model.now node.now.frame.now node.now.work.now node.now.path.now weights.now) times.items) }
    ensures items { IfOk result (λ times. AreOfNode node.now.model.now node.now.path.now times.items) }
    ensures comes { IfOk result (λ times. (end : Option Inequality) (value : ℤ) → IsNodeOverKept node.now.model.now node.now.path.now end → ComesOver node.now.model.now node.now.work.now node.now.path.now end value times.cut times.items (system_form node.now.frame.now node.now.work.now weights.now) (lifted_limit node.now.frame.now node.now.work.now value weights.now)) }
    ensures in_range { OnOk result (¬ (LiftLeaves node.now.model.now node.now.work.now node.now.frame.now node.now.path.now weights.now)) }
    ensures wide { IfErr result (HaltsWide (LiftLeaves node.now.model.now node.now.work.now node.now.frame.now node.now.path.now weights.now)) }
    ensures limits { IsWithinLimits node.now.model.now }
    ensures shaped { IsShaped node.now.frame.now }
{
    let _rows = node.model.rows();
    let _dimension = node.frame.dimension();
    let times = lift(alloc, node.model, node.frame, node.work, node.path, weights)?;
    let cut = times.cut;
    let items = lift_line(alloc, node.model, &times)?;
    Ok(WorkTimes { cut, items })
}

/// The inequality at the end of a form, once: its number is behind those of the slices.
fn end_use<'a>(node: &Node<'a>) -> Result<FracUse, LineHalt>
    ensures value { IfOk result (λ item. item ≡ end_use node.now.model.now node.now.path.now) }
    ensures halt { IfErr result (λ halt. halt ≡ halts.NoMemory) }
{
    let slices = node.path.items().len();
    if slices > LONGEST_PATH {
        return Err(LineHalt::NoMemory);
    }
    let before = node.model.rows() + node.model.columns();
    Ok(FracUse {
        index: 2 * (before + slices) as u32,
        times: Frac::whole(1),
    })
}

/// The cut with its value so many times; none where that is 0.
fn cut_part(cut: Option<i128>, times: &Frac) -> Option<CutFrac>
    ensures { result ≡ cut_part cut times.now }
{
    let value = cut?;
    if times.num() == 0 {
        return None;
    }
    Some(CutFrac {
        value,
        times: *times,
    })
}

/// The least whole line of multipliers that refute a node, with the cut of this value so many times, where there is one. `Heavy`
/// comes exactly where that line weighs above 2 to the power 126.
pub fn line_of<'a>(
    alloc: Global,
    rows: &'a DenseRows,
    path: &'a Path,
    cut: Option<i128>,
    end: &'a End<'a>,
    times: &WorkTimes,
) -> Result<Line, LineHalt>
    requires limits { IsWithinLimits rows.now }
    requires path { HasForms (length rows.now.box) path.now }
    requires end { IfSome (inequality_of end.now) (IsDense (length rows.now.box)) }
    requires refuted { IsRefutation rows.now path.now (inequality_of end.now) (cut_part cut times.now.cut) times.now.items }
    ensures line { IfOk result (ClosesUnder rows.now cut path.now (inequality_of end.now)) }
    ensures never_wide { IsErrOf result halts.Wide → ⊥ }
    ensures heavy { IsErrOf result halts.Heavy → (line : Line) → IsLeastLine (cut_part cut times.now.cut) times.now.items line → pos (2 ^ 126) <ℤ line_weight rows.now path.now (inequality_of end.now) line }
{
    let cut = cut_part(cut, &times.cut);
    Ok(from_fracs(alloc, rows, path, end, &cut, &times.items)?)
}
