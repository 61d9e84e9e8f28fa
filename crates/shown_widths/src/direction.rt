//! Whether a form is a direction of a node, shown by points and lines alone.
ghost use Rattle.std.specs.Prelude.{◌≡◌, ◌<◌, length, IfOk, IfSome, IsTrue, All};
ghost use Rattle.spaces.specs.Maps.{pulled_form};
ghost use Rattle.spaces.specs.Tables.{rows_in};
ghost use Rattle.form_widths.specs.Directions.{IsDirection};
ghost use Rattle.node_point.specs.NodePoints.{IsNodePoint};
ghost use Rattle.proof_tree.specs.Moves.{SplitsUnder};
ghost use Rattle.reformulate.specs.Substitutions.{columns_of, dimension_of};
ghost use Rattle.farkas_lift.specs.NodeEqualities.{work_form};
ghost use Rattle.node_lines.specs.NodeSystems.{IsFramedNode};
ghost use Rattle.node_regions.specs.NodeRegions.{IsInNode};
ghost use Rattle.shown_widths.specs.Thin.{IsThinBy};

use crate::columns::{are_wide, divisor_of};
use crate::point::{WorkPoint, work_points, work_values};
use crate::room::{Trial, Width, all_leave, factor_in, units_of};
use crate::width::width_of;
use frac128::Frac;
use node_lines::Node;
use node_point::NodePoint;
use proof_tree::Cut;
use sequence::NoMemory;
use spaces::{Form, Kernel, MapStop};
use std::alloc::Global;

/// A form in the coordinates of the frame; none where a number leaves 128 bits.
fn kernel_form(
    alloc: Global,
    node: Node<'_>,
    form: &[i128],
) -> Result<Option<Form<Kernel>>, NoMemory>
    requires { columns_of node.frame.now ≡ length node.work.now.rows.box }
    ensures { IfOk result (λ found. IfSome found (λ kernel. kernel ≡ pulled_form node.entry.frame.now.to_work (work_form node.entry.work.now form.now))) }
{
    let factors = Form::of(work_values(alloc, node.work, form)?);
    match node.frame.to_work().pull_back(alloc, &factors) {
        Ok(pulled) => Ok(Some(pulled.form)),
        Err(MapStop::Wide) => Ok(None),
        Err(MapStop::NoMemory) => Err(NoMemory),
    }
}

/// Whether points over the work columns show a form of this width, primitive in the coordinates of the frame, to be a direction.
fn is_thin(
    alloc: Global,
    node: Node<'_>,
    width: &Frac,
    points: &[WorkPoint],
) -> Result<bool, NoMemory>
    requires columns { columns_of node.frame.now ≡ length node.work.now.rows.box }
    requires some { 0 < length points.now }
    ensures { IfOk result (λ shown. IsTrue shown → IsThinBy node.entry.frame.now node.entry.work.now node.entry.cut width.now points.now) }
{
    let wide = are_wide(node.frame.to_work().lines(), width, points);
    if !wide {
        return Ok(false);
    }
    let Some(units) = units_of(width) else {
        return Ok(false);
    };
    let factor = factor_in(node.frame.dimension());
    let trial = Trial {
        width: Width { units, factor },
        columns: node.work.columns(),
        points,
    };
    let shown = all_leave(alloc, node, trial)?;
    Ok(shown)
}

/// Whether the points and the lines of a split's two ends show that its form is a direction of the node.
///
/// The width of the form is read off the lines. It is compared with the room of the mean of the points in each coordinate of the
/// frame, times 4^(r-1), and with the difference of two points in each free column. A form that is a direction may be answered
/// to be none: where the points are too few, a line does not use its end, or a number leaves 128 bits. In one coordinate each
/// primitive form is a direction.
pub fn is_direction<'a>(
    alloc: Global,
    node: Node<'a>,
    cut: &Cut,
    points: &[NodePoint],
) -> Result<bool, NoMemory>
    requires framed { IsFramedNode node.model.now node.work.now node.frame.now node.path.now }
    requires splits { SplitsUnder node.model.now node.cut node.path.now cut.now }
    requires points { All (IsNodePoint node.model.now node.path.now node.cut) points.now }
    ensures { IfOk result (λ shown. IsTrue shown → IsDirection (IsInNode node.entry.frame.now node.entry.work.now node.entry.cut) (dimension_of node.entry.frame.now) (rows_in node.entry.frame.now.to_work.lines) (pulled_form node.entry.frame.now.to_work (work_form node.entry.work.now cut.now.form))) }
{
    let _columns = node.model.columns();
    if points.is_empty() {
        return Ok(false);
    }
    if node.frame.dimension() == 0 {
        return Ok(false);
    }
    let Some(form) = kernel_form(alloc, node, cut.form.items())? else {
        return Ok(false);
    };
    let Some(divisor) = divisor_of(form.items()) else {
        return Ok(false);
    };
    if divisor != 1 {
        return Ok(false);
    }
    if node.frame.dimension() == 1 {
        return Ok(true);
    }
    let Some(width) = width_of(node, cut) else {
        return Ok(false);
    };
    let at_work = work_points(alloc, node.work, points)?;
    let shown = is_thin(alloc, node, &width, &at_work)?;
    Ok(shown)
}
