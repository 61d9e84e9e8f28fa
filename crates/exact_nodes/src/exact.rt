//! The exact way of a node.
ghost use Rattle.std.specs.Prelude.{◌≡◌, ◌<◌, IfErr, IfOk};
ghost use Rattle.std.specs.List.{All};
ghost use Rattle.frac128.specs.Range.{IsNarrow};
ghost use Rattle.whole_rows.specs.WholeRows.{IsWithinLimits};
ghost use Rattle.form_widths.specs.Directions.{IsDirection};
ghost use Rattle.norm_gauge.specs.Widths.{IsInhabited};
ghost use Rattle.presolve_map.specs.Columns.{IsColumnMap};
ghost use Rattle.proof_tree.specs.Moves.{SplitsUnder};
ghost use Rattle.proof_tree.specs.declared.tree.Mark.TheVariants as marks;
ghost use Rattle.reformulate.specs.Substitutions.{IsSubstitution, dimension_of};
ghost use Rattle.spaces.specs.Tables.{rows_in};
ghost use Rattle.node_regions.specs.NodeRegions.{node_polytope};
ghost use Rattle.exact_nodes.specs.ExactMoves.{HaltsSo, IsExactMove, IsNodeOf};
ghost use Rattle.exact_nodes.specs.NodeExcuses.{IsChosenDirection};
ghost use Rattle.exact_nodes.specs.Regions.{IsRegion};
ghost use Rattle.exact_nodes.specs.ThinMoves.{IsThinAlong};

use crate::excuse::Excuse;
use crate::forms::model_form;
use crate::halt::Halt;
use crate::lines::{closing_line, lower_end, upper_end};
use crate::point::only_point;
use crate::region::{region, some_point};
use farkas_rows::Line;
use lp_dict::System;
use lp_solve::{Ended, Solved};
use node_lines::Node;
use proof_tree::{Cut, Mark};
use sequence::NoMemory;
use spaces::{Affine, Form, Kernel, Original, Vect, Work};
use std::alloc::Global;
use thin_columns::thin_column;
use thin_forms::{ThinForm, ThinFormStop, thinnest};

/// The move of a node in the exact way.
#[derive(Drop)]
pub enum Exact {
    /// The line refutes the node.
    Close(Line),
    /// A point that is better than the best one.
    Point(Vect<Original>),
    /// A split along a thin direction.
    Split(Cut),
    /// Why there is none of these.
    Excused(Excuse),
}

/// A direction of a node that has points, on the coordinates of its frame.
fn direction<'a>(alloc: Global, node: &Node<'a>, system: &System) -> Result<Form<Kernel>, Halt>
    requires node { IsNodeOf node.now.model.now node.now.work.now node.now.frame.now node.now.path.now }
    requires region { IsRegion node.now.frame.now node.now.work.now node.now.cut system.now }
    requires inhabited { IsInhabited (node_polytope node.now.frame.now node.now.work.now node.now.cut) }
    requires some { 0 < dimension_of node.now.frame.now }
    ensures chosen { IfOk result (IsChosenDirection (node_polytope node.now.frame.now node.now.work.now node.now.cut) (rows_in node.now.frame.now.to_work.lines)) }
    ensures narrow { IfOk result (All IsNarrow) }
    ensures halt { IfErr result (HaltsSo node.now.model.now node.now.work.now node.now.frame.now node.now.path.now node.now.cut) }
{
    let lines = node.frame.to_work().lines();
    if let Some(form) = thin_column(alloc, system, lines)? {
        return Ok(form);
    }
    match thinnest(alloc, system, lines) {
        Ok(
            ThinForm {
                form,
                gauge: _gauge,
            },
        ) => Ok(form),
        Err(ThinFormStop::Thin(excuse)) => Err(Halt::Excused(Excuse::Thin(excuse))),
        Err(ThinFormStop::Column { form: _form, lp }) => Err(Halt::Excused(Excuse::Lp(lp))),
        Err(ThinFormStop::NoMemory) => Err(Halt::NoMemory),
    }
}

/// The split of a node that has points along a direction.
fn split<'a>(
    alloc: Global,
    node: &Node<'a>,
    map: &Affine<Work, Original>,
    system: &System,
) -> Result<Cut, Halt>
    requires node { IsNodeOf node.now.model.now node.now.work.now node.now.frame.now node.now.path.now }
    requires map { IsColumnMap node.now.model.now.box map.now }
    requires limits { IsWithinLimits node.now.model.now }
    requires frame { IsSubstitution node.now.frame.now }
    requires region { IsRegion node.now.frame.now node.now.work.now node.now.cut system.now }
    requires inhabited { IsInhabited (node_polytope node.now.frame.now node.now.work.now node.now.cut) }
    requires some { 0 < dimension_of node.now.frame.now }
    ensures splits { IfOk result (SplitsUnder node.now.model.now node.now.cut node.now.path.now) }
    ensures thin { IfOk result (IsThinAlong node.now.model.now node.now.path.now node.now.cut) }
    ensures mark { IfOk result (λ cut. cut.mark ≡ marks.Thin) }
    ensures halt { IfErr result (HaltsSo node.now.model.now node.now.work.now node.now.frame.now node.now.path.now node.now.cut) }
{
    let form = direction(alloc, node, system)?;
    let moved = model_form(alloc, node, map, &form)?;
    let lower = lower_end(alloc, node, system, &form, &moved)?;
    let upper = upper_end(alloc, node, system, &form, &moved)?;
    Ok(Cut {
        form: moved.form,
        lo: lower.value,
        count: upper.value - lower.value + 1,
        below: lower.line,
        above: upper.line,
        mark: Mark::Thin,
    })
}

/// The move of a node that has points: its only point, or a split.
fn inhabited_move<'a>(
    alloc: Global,
    node: &Node<'a>,
    map: &Affine<Work, Original>,
    system: &System,
) -> Result<Exact, Halt>
    requires node { IsNodeOf node.now.model.now node.now.work.now node.now.frame.now node.now.path.now }
    requires map { IsColumnMap node.now.model.now.box map.now }
    requires limits { IsWithinLimits node.now.model.now }
    requires region { IsRegion node.now.frame.now node.now.work.now node.now.cut system.now }
    requires inhabited { IsInhabited (node_polytope node.now.frame.now node.now.work.now node.now.cut) }
    ensures done { IfOk result (IsExactMove node.now.model.now node.now.work.now node.now.frame.now node.now.path.now node.now.cut) }
    ensures halt { IfErr result (HaltsSo node.now.model.now node.now.work.now node.now.frame.now node.now.path.now node.now.cut) }
{
    if node.frame.dimension() == 0 {
        let point = only_point(alloc, node, map)?;
        return Ok(Exact::Point(point));
    }
    let cut = split(alloc, node, map, system)?;
    Ok(Exact::Split(cut))
}

/// The move of a node, or why it goes no further.
fn tried<'a>(alloc: Global, node: &Node<'a>, map: &Affine<Work, Original>) -> Result<Exact, Halt>
    requires node { IsNodeOf node.now.model.now node.now.work.now node.now.frame.now node.now.path.now }
    requires map { IsColumnMap node.now.model.now.box map.now }
    ensures done { IfOk result (IsExactMove node.now.model.now node.now.work.now node.now.frame.now node.now.path.now node.now.cut) }
    ensures halt { IfErr result (HaltsSo node.now.model.now node.now.work.now node.now.frame.now node.now.path.now node.now.cut) }
{
    let system = region(alloc, node)?;
    let Ended { solved, pivots } = some_point(alloc, node, &system)?;
    match solved {
        Solved::Empty { multipliers } => {
            let line = closing_line(alloc, node, multipliers, pivots)?;
            Ok(Exact::Close(line))
        }
        Solved::Least {
            point: _point,
            value: _value,
            multipliers: _multipliers,
        } => inhabited_move(alloc, node, map, &system),
    }
}

/// The move of a node by exact fractions: a line that closes it where it has no rational point, the point of a frame without
/// coordinates, or a split along a thin direction. The map is that of presolving.
///
/// `Excused` comes only where a step of this way fails, as the excuse says.
pub fn exact_move<'a>(
    alloc: Global,
    node: &Node<'a>,
    map: &Affine<Work, Original>,
) -> Result<Exact, NoMemory>
    requires node { IsNodeOf node.now.model.now node.now.work.now node.now.frame.now node.now.path.now }
    requires map { IsColumnMap node.now.model.now.box map.now }
    ensures { IfOk result (IsExactMove node.now.model.now node.now.work.now node.now.frame.now node.now.path.now node.now.cut) }
{
    match tried(alloc, node, map) {
        Ok(exact) => Ok(exact),
        Err(Halt::Excused(excuse)) => Ok(Exact::Excused(excuse)),
        Err(Halt::NoMemory) => Err(NoMemory),
    }
}
