//! The linear programs of a node in the coordinates of its frame.
ghost use Rattle.std.specs.Prelude.{◌≡◌, length, IfErr, IfOk};
ghost use Rattle.std.specs.List.{All};
ghost use Rattle.exact_math.specs.Ring.{integers};
ghost use Rattle.exact_vectors.specs.Vectors.{zeros};
ghost use Rattle.frac128.specs.Range.{IsNarrow};
ghost use Rattle.whole_rows.specs.WholeRows.{IsWithinLimits};
ghost use Rattle.lp_dict.specs.Systems.{wholes};
ghost use Rattle.lp_solve.specs.Ended.{EndsSo};
ghost use Rattle.reformulate.specs.Substitutions.{dimension_of};
ghost use Rattle.norm_gauge.specs.Gauges.{program};
ghost use Rattle.spaces.specs.Tables.{rows_in};
ghost use Rattle.node_regions.specs.NodeRegions.{node_polytope};
ghost use Rattle.exact_nodes.specs.ExactMoves.{HaltsSo, IsNodeOf};
ghost use Rattle.exact_nodes.specs.Programs.{IsSought};
ghost use Rattle.exact_nodes.specs.Regions.{IsRegion, AnswerIs};

use crate::excuse::Excuse;
use crate::halt::Halt;
use farkas_lift::kernel_system;
use lp_dict::System;
use lp_solve::{Ended, LpStop, minimise_with_pivots};
use node_lines::Node;
use sequence::NoMemory;
use spaces::{Form, Kernel, MapStop};
use std::alloc::Global;

/// The form that is 0 everywhere.
pub(crate) fn zero_form(alloc: Global, coordinates: usize) -> Result<Form<Kernel>, NoMemory>
    ensures { IfOk result (λ form. form ≡ zeros integers coordinates) }
{
    Ok(Form::of(vec![in alloc; 0; coordinates]?))
}

/// The node's system.
pub(crate) fn region<'a>(alloc: Global, node: &Node<'a>) -> Result<System, Halt>
    requires node { IsNodeOf node.now.model.now node.now.work.now node.now.frame.now node.now.path.now }
    ensures region { IfOk result (IsRegion node.now.frame.now node.now.work.now node.now.cut) }
    ensures limits { IsWithinLimits node.now.model.now }
    ensures halt { IfErr result (HaltsSo node.now.model.now node.now.work.now node.now.frame.now node.now.path.now node.now.cut) }
{
    let coordinates = node.frame.dimension();
    let _columns = node.model.columns();
    match kernel_system(alloc, node.frame, node.work, node.cut) {
        Ok(system) => Ok(system),
        Err(MapStop::Wide) => {
            let zero = zero_form(alloc, coordinates)?;
            Err(Halt::Excused(Excuse::WideMap(zero)))
        }
        Err(MapStop::NoMemory) => Err(Halt::NoMemory),
    }
}

/// The answer of a linear program of the node.
pub(crate) fn answer<'a>(
    alloc: Global,
    node: &Node<'a>,
    system: &System,
    form: &Form<Kernel>,
) -> Result<Ended, Halt>
    requires node { IsNodeOf node.now.model.now node.now.work.now node.now.frame.now node.now.path.now }
    requires region { IsRegion node.now.frame.now node.now.work.now node.now.cut system.now }
    requires sought { IsSought (node_polytope node.now.frame.now node.now.work.now node.now.cut) (rows_in node.now.frame.now.to_work.lines) form.now }
    requires coordinates { length form.now ≡ dimension_of node.now.frame.now }
    requires narrow { All IsNarrow form.now }
    ensures solved { IfOk result (λ ended. AnswerIs (node_polytope node.now.frame.now node.now.work.now node.now.cut) form.now ended.solved) }
    ensures ends { IfOk result (λ ended. EndsSo (program (node_polytope node.now.frame.now node.now.work.now node.now.cut) (wholes form.now)) ended.pivots ended.solved) }
    ensures halt { IfErr result (HaltsSo node.now.model.now node.now.work.now node.now.frame.now node.now.path.now node.now.cut) }
{
    match minimise_with_pivots(alloc, system, form) {
        Ok(ended) => Ok(ended),
        Err(LpStop::Excuse(excuse)) => Err(Halt::Excused(Excuse::Lp(excuse))),
        Err(LpStop::NoMemory) => Err(Halt::NoMemory),
    }
}

/// Whether the node has a rational point: a point of it, or multipliers that show that there is none.
pub(crate) fn some_point<'a>(alloc: Global, node: &Node<'a>, system: &System) -> Result<Ended, Halt>
    requires node { IsNodeOf node.now.model.now node.now.work.now node.now.frame.now node.now.path.now }
    requires region { IsRegion node.now.frame.now node.now.work.now node.now.cut system.now }
    ensures solved { IfOk result (λ ended. AnswerIs (node_polytope node.now.frame.now node.now.work.now node.now.cut) (zeros integers (dimension_of node.now.frame.now)) ended.solved) }
    ensures ends { IfOk result (λ ended. EndsSo (program (node_polytope node.now.frame.now node.now.work.now node.now.cut) (wholes (zeros integers (dimension_of node.now.frame.now)))) ended.pivots ended.solved) }
    ensures halt { IfErr result (HaltsSo node.now.model.now node.now.work.now node.now.frame.now node.now.path.now node.now.cut) }
{
    let zero = zero_form(alloc, node.frame.dimension())?;
    answer(alloc, node, system, &zero)
}
