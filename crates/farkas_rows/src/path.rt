//! The slices that lead to a node.
ghost use Rattle.std.specs.Prelude.{◌≡◌, ◌<◌, ◌↔◌, [], ◌∷◌, ◌++◌, length, OnOk, OnErr, IfNone, IsNone, IfSome};

use sequence::NoMemory;
use smallvec::SmallVec;
use spaces::{Form, Original};
use std::alloc::Global;
use std::default::MadeWith;
use std::marker::Model;

/// The points at which the form has the value `beta`.
#[derive(Debug, Drop)]
pub struct Slice {
    pub form: Form<Original>,
    pub beta: i128,
}

/// What stands in a place that no slice takes.
impl MadeWith<Global> for Slice {
    ghost is_made_with = { λ slice. slice.form ≡ [] };

    fn made_with(alloc: Global) -> Self {
        Slice {
            form: Form::of(Vec::new(alloc)),
            beta: 0,
        }
    }
}

/// How many slices a path has room for before it takes memory.
const SHORT: usize = 8;

/// The slices from the root down to a node, in order.
#[derive(Drop)]
pub struct Path {
    slices: SmallVec<Slice, SHORT>,
}

impl Model for Path {
    ghost use Rattle.std.specs.Prelude.{List};
    ghost use Rattle.farkas_rows.specs.declared.path.Slice.{Slice};

    ghost Value = { List Slice };

    ghost view = { λ path. path.slices.items };
}

impl Path {
    /// The path of the root. It takes no memory, and asks `alloc` for it as it grows.
    pub fn new(alloc: Global) -> Path
        ensures { result ≡ [] }
    {
        Path {
            slices: SmallVec::new(alloc),
        }
    }

    /// Puts a slice at the end. Where no memory is to be had, the slice is dropped.
    pub fn push(&mut self, slice: Slice) -> Result<(), NoMemory>
        ensures ok { OnOk result (self.new ≡ self.old ++ slice ∷ []) }
        ensures err { OnErr result (self.new ≡ self.old) }
    {
        self.slices.push(slice)?;
        Ok(())
    }

    /// Takes the last slice away, where there is one.
    pub fn pop(&mut self) -> Option<Slice>
        ensures some { IfSome result (λ slice. self.old ≡ self.new ++ slice ∷ []) }
        ensures none { IsNone result ↔ (self.old ≡ []) }
        ensures kept { IfNone result (self.new ≡ self.old) }
    {
        self.slices.pop()
    }

    /// Lends the slices in order.
    pub fn items(&self) -> &[Slice]
        ensures { result.now ≡ self.now }
    {
        self.slices.as_slice()
    }
}
