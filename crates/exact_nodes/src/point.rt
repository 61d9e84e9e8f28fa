//! The point of a node whose frame has no coordinates.
ghost use Rattle.std.specs.Prelude.{◌≡◌, IfOk};
ghost use Rattle.norm_gauge.specs.Widths.{IsInhabited};
ghost use Rattle.whole_rows.specs.WholeRows.{IsWithinLimits};
ghost use Rattle.presolve_map.specs.Columns.{IsColumnMap};
ghost use Rattle.proof_tree.specs.Moves.{Improves};
ghost use Rattle.reformulate.specs.Substitutions.{dimension_of};
ghost use Rattle.node_regions.specs.NodeRegions.{node_polytope};
ghost use Rattle.exact_nodes.specs.ExactMoves.{IsNodeOf};

use node_lines::Node;
use sequence::NoMemory;
use spaces::{Affine, MapStop, Original, Vect, Work};
use std::alloc::Global;

/// The only point of a node whose frame has no coordinates.
pub(crate) fn only_point<'a>(
    alloc: Global,
    node: &Node<'a>,
    map: &Affine<Work, Original>,
) -> Result<Vect<Original>, NoMemory>
    requires node { IsNodeOf node.now.model.now node.now.work.now node.now.frame.now node.now.path.now }
    requires map { IsColumnMap node.now.model.now.box map.now }
    requires limits { IsWithinLimits node.now.model.now }
    requires none { dimension_of node.now.frame.now ≡ 0 }
    requires inhabited { IsInhabited (node_polytope node.now.frame.now node.now.work.now node.now.cut) }
    ensures { IfOk result (Improves node.now.model.now node.now.cut node.now.path.now) }
{
    match map.apply(alloc, node.frame.to_work().base()) {
        Ok(point) => Ok(point),
        Err(MapStop::Wide) => unreachable!(),
        Err(MapStop::NoMemory) => Err(NoMemory),
    }
}
