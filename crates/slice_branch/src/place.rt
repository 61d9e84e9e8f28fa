//! What a brancher keeps of a node.
ghost use Rattle.std.specs.Prelude.{IfOk};
ghost use Rattle.slice_branch.specs.PlainPlaces.{IsPlainPlace};

use exact_nodes::Excuse;
use farkas_rows::Line;
use node_search::Programs;
use proof_tree::Cut;
use reformulate::Frame;
use sequence::NoMemory;
use std::alloc::Global;
use std::rc::Rc;

/// A node in the coordinates of a frame, with what it keeps for its fast programs.
#[derive(Drop)]
pub struct Node {
    pub frame: Frame,
    pub programs: Programs,
    /// How many slices lead to the node.
    pub depth: usize,
}

/// A node that is split by single columns, as all below it are.
#[derive(Drop)]
pub struct PlainNode {
    /// Why the first such node has no thin direction; all below share it.
    pub excuse: Rc<Excuse>,
    /// How many slices lead to the first such node.
    pub depth: usize,
}

/// What settles a root before it is searched.
#[derive(Drop)]
pub enum Settled {
    /// Bounds cross, or a row cannot be met within the box.
    Closed(Line),
    /// The equalities have no integer point: a form has no value at all.
    Gap(Cut),
}

/// What a brancher keeps of a node.
#[derive(Drop)]
pub enum Place {
    /// The root, with its move.
    Settled(Settled),
    /// A node with a frame of its equalities.
    Framed(Node),
    /// A node that is split by single columns.
    Plain(PlainNode),
}

/// The place of a node that is excused, and to which so many slices lead.
pub(crate) fn plain_place(alloc: Global, excuse: Excuse, depth: usize) -> Result<Place, NoMemory>
    ensures { IfOk result (IsPlainPlace excuse depth) }
{
    let excuse = Rc::new(alloc, excuse)?;
    Ok(Place::Plain(PlainNode { excuse, depth }))
}

impl PlainNode {
    /// The place of a slice of this node: it has the same excuse.
    pub(crate) fn below(&self) -> Result<Place, NoMemory>
        ensures { IfOk result (IsPlainPlace self.now.excuse.value self.now.depth) }
    {
        let excuse = self.excuse.clone()?;
        Ok(Place::Plain(PlainNode {
            excuse,
            depth: self.depth,
        }))
    }
}
