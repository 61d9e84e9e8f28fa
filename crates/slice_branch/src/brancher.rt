//! The brancher of the search by reformulation.
ghost use Rattle.std.specs.Prelude.{◌≡◌, ◌≤◌, ◌^◌, ◌+◌, ◌+ℤ◌, ◌≤ℤ◌, ◌<ℤ◌, ℤ, pos, List, [], length, Option, None, IfOk};
ghost use Rattle.farkas_rows.specs.Refutes.{HasForms};
ghost use Rattle.farkas_rows.specs.declared.path.Slice.{Slice};
ghost use Rattle.node_regions.specs.NodeFrames.{IsNodeFrame};
ghost use Rattle.node_slices.specs.SliceNodes.{IsSlicedNode};
ghost use Rattle.presolve_map.specs.Roots.{IsClosedRoot};
ghost use Rattle.proof_tree.specs.Moves.{widest, Branches};
ghost use Rattle.reformulate.specs.Substitutions.{dimension_of};
ghost use Rattle.slice_branch.specs.Framed.{IsAllowed, IsTried};
ghost use Rattle.slice_branch.specs.Places.{height_of, is_plain_place, IsRootPlace, IsSlicePlace, StandsFor};
ghost use Rattle.slice_branch.specs.Roots.{IsRootOf, IsRootOf-prop};
ghost use Rattle.slice_branch.specs.declared.place.Place.TheVariants.{Framed};

use crate::check::widest_of;
use crate::exact::{Tried, exact_tried};
use crate::place::{Node, Place, Settled, plain_place};
use crate::roots::{Root, open_root, root_equalities};
use crate::settled::{copy_of, settled_move};
use crate::slices::slice_place;
use crate::work::{Given, framed_move};
use farkas_rows::Path;
use node_search::{Halt, Programs, row_forms};
use node_task::{OpenModel, Task};
use plain_slices::plain_move;
use presolve_map::{Presolved, presolve};
use proof_tree::{Brancher, Cut, Move};
use reformulate::Frame;
use sequence::NoMemory;
use std::alloc::Global;
use whole_rows::DenseRows;

/// Splits each node along a thin direction of a frame of its equalities. Numbers of 64 bits are tried first, and then exact
/// fractions; only where these leave their range the node and all below it are split by single columns.
#[derive(Debug, Drop)]
pub struct SliceBrancher<'a> {
    alloc: Global,
    rows: &'a DenseRows,
    root: Root<'a>,
    /// How many slices a split may have: one more than the widest column has differences.
    most: i128,
    /// Forms that may be thin, over the work columns.
    further: Vec<Vec<i128>>,
    ghost most_is: { most ≡ pos (widest rows.now.box + 1) },
    ghost root_is: { IsRootOf rows.now root } by { IsRootOf-prop rows.now root },
}

/// Forms that may be thin at a root and below it, where they are found.
fn further_forms(alloc: Global, root: &Root) -> Result<Vec<Vec<i128>>, NoMemory> {
    match root {
        Root::Open(model) => row_forms(alloc, model, &root_equalities(alloc, model)?),
        Root::Closed(_) => Ok(Vec::new(alloc)),
    }
}

impl<'a> SliceBrancher<'a> {
    /// The brancher for the rows.
    pub fn new(alloc: Global, rows: &'a DenseRows) -> Result<SliceBrancher<'a>, NoMemory>
        ensures { IfOk result (λ brancher. brancher.rows.now ≡ rows.now) }
    {
        let most = widest_of(rows.bounds()) + 1;
        let root = match presolve(alloc, rows)? {
            Presolved::Closed(line) => Root::Closed(line),
            Presolved::Open { map, rows: work } => Root::Open(OpenModel { rows, map, work }),
        };
        let further = further_forms(alloc, &root)?;
        Ok(SliceBrancher {
            alloc,
            rows,
            root,
            most,
            further,
        })
    }

    /// The place of the root.
    pub fn root(&self) -> Result<Place, NoMemory>
        ensures { IfOk result (λ place. StandsFor self.now.rows.now place [] None) }
    {
        // Rows keep their limits, and the place of a root is that of the empty path.
        let columns = self.rows.columns();
        prove!(columns <= 256);
        self.root_place()
    }

    /// The place of the root: the move that settles it, its frame, or its depth.
    fn root_place(&self) -> Result<Place, NoMemory>
        ensures { IfOk result (IsRootPlace self.now.rows.now) }
    {
        match &self.root {
            Root::Closed(line) => Ok(Place::Settled(Settled::Closed(copy_of(self.alloc, line)?))),
            Root::Open(model) => open_root(self.alloc, model),
        }
    }

    /// What presolving left of a root that is not closed.
    fn model(&self) -> &OpenModel<'a>
        requires { ¬ (IsClosedRoot self.now.rows.now) }
        ensures { result.now.rows.now ≡ self.now.rows.now }
    {
        match &self.root {
            Root::Open(model) => model,
            Root::Closed(_) => unreachable!(),
        }
    }
}

impl SliceBrancher<'_> {
    /// The move of a node with a frame: in the fast way, or else in the exact one. Or its excuse in this frame.
    fn node_move<'x>(
        &'x self,
        frame: &'x Frame,
        programs: &mut Programs,
        path: &'x Path,
        best: Option<i128>,
    ) -> Result<Tried, NoMemory>
        requires not_closed { ¬ (IsClosedRoot self.now.rows.now) }
        requires node { IsNodeFrame self.now.rows.now path.now frame.now }
        requires short { length path.now + dimension_of frame.now ≤ length self.now.rows.now.box }
        requires forms { HasForms (length self.now.rows.now.box) path.now }
        requires small { widest self.now.rows.now.box ≤ 2 ^ 97 }
        ensures { IfOk result (IsTried self.entry.now.rows.now path.entry.now best frame.entry.now) }
    {
        let model = self.model();
        let task = Task {
            rows: self.rows,
            path,
            best,
        };
        let given = Given {
            frame,
            further: &self.further,
            most: self.most,
        };
        match framed_move(self.alloc, model, task, given, programs) {
            Ok(found) => Ok(Tried::Moved(found)),
            Err(Halt::NoMemory) => Err(NoMemory),
            Err(Halt::GivesUp) => exact_tried(self.alloc, model, task, frame),
        }
    }

    /// The place of slice `j` of a node with a frame.
    fn framed_child(&self, node: &Node, cut: &Cut, j: i128) -> Result<Place, NoMemory>
        requires branches { (path : List Slice) × (best : Option ℤ) × Branches StandsFor height_of is_plain_place IsAllowed self.now.rows.now (Framed node.now) cut.now path best }
        requires first { pos 0 ≤ℤ j }
        requires last { j <ℤ cut.now.count }
        ensures { IfOk result (λ place. (path : List Slice) → IsSlicedNode self.now.rows.now node.now.frame cut.now.form (cut.now.lo +ℤ j) path → IsSlicePlace self.now.rows.now node.now path (record { form = cut.now.form; beta = cut.now.lo +ℤ j }) place) }
    {
        slice_place(self.alloc, self.model(), node, &cut.form, cut.lo + j)
    }
}

impl Brancher for SliceBrancher<'_> {
    type Place = Place;

    ghost use Rattle.slice_branch.specs.Framed.{IsAllowed};
    ghost use Rattle.slice_branch.specs.Places.{StandsFor, height_of, is_plain_place, path_is_short, stands_under};
    ghost use Rattle.slice_branch.specs.Changes.{Becomes, Begins};

    ghost rows = { λ brancher. brancher.rows.now };

    ghost stands_for = { StandsFor };

    ghost height = { height_of };

    ghost is_plain = { is_plain_place };

    ghost allows = { IsAllowed };

    ghost becomes = { Becomes };

    ghost begins = { Begins };

    fn work(
        &mut self,
        place: &mut Place,
        path: &Path,
        best: Option<i128>,
    ) -> Result<Move, NoMemory> {
        // Rows keep their limits.
        let columns = self.rows.columns();
        prove!(columns <= 256);
        match place {
            Place::Settled(settled) => settled_move(self.alloc, settled),
            Place::Plain(_) => plain_move(self.alloc, self.rows, path, best),
            Place::Framed(node) => {
                match self.node_move(&node.frame, &mut node.programs, path, best)? {
                    Tried::Moved(found) => Ok(found),
                    Tried::Excused(excuse) => {
                        *place = plain_place(self.alloc, excuse, path.items().len())?;
                        plain_move(self.alloc, self.rows, path, best)
                    }
                }
            }
        }
    }

    fn child(&mut self, place: &Place, cut: &Cut, j: i128) -> Result<Place, NoMemory> {
        match place {
            Place::Settled(_) => unreachable!(),
            Place::Plain(node) => node.below(),
            Place::Framed(node) => self.framed_child(node, cut, j),
        }
    }

    ghost stands_lower = { λ rows place path now before value lower here. stands_under rows place path now before value lower here };

    ghost short = { λ rows place path best here. path_is_short rows place path best here };
}
