//! The splits that are open above the node in hand.
ghost use Rattle.std.specs.Prelude.{◌≡◌, ℕ, ◌*◌, ◌^◌, ◌<◌, ◌≤◌, pos, neg_ℤ, ◌≤ℤ◌, ◌<ℤ◌, List, [], ◌∷◌, length, vec_len, IfOk};
ghost use Rattle.farkas_rows.specs.Refutes.{HasForms};
ghost use Rattle.proof_text.specs.declared.claim.Claim.{Claim};
ghost use Rattle.tree_checker.specs.Stages.{path_of, behind};

use farkas_rows::Slice;
use sequence::NoMemory;
use spaces::{Form, Original};
use std::alloc::Global;
use std::marker::Model;
use std::mem;

/// The open splits above a node, each with the slice that leads on to it. There is room for two splits for each column.
#[derive(Drop)]
pub(crate) struct OpenSplits {
    columns: usize,
    /// The slices in hand are the first `depth` of them, the outermost first.
    slices: Vec<Slice>,
    /// The value behind the last slice of each split.
    ends: Vec<i128>,
    depth: usize,
}

impl Model for OpenSplits {
    ghost use Rattle.tree_checker.specs.Stacks.{Stack};

    ghost Value = { Stack };

    ghost use Rattle.tree_checker.specs.Stacks.{splits_of, IsStack};

    ghost view = { λ s. record { columns = s.columns; splits = splits_of s.slices.items s.ends.items s.depth } };

    ghost invariant = { λ s. IsStack s.columns s.slices.items s.ends.items s.depth };
}

impl OpenSplits {
    ghost use Rattle.tree_checker.specs.Stacks.{stage_behind};

    /// No split, over at most 256 columns. It takes the memory for all that can be open.
    pub(crate) fn new(alloc: Global, columns: usize) -> Result<OpenSplits, NoMemory>
        requires { columns ≤ 256 }
        ensures { IfOk result (λ stack. stack ≡ record { columns = columns; splits = [] }) }
    {
        let slices = room(alloc, columns)?;
        let ends = vec![in alloc; 0; 2 * columns]?;
        Ok(OpenSplits {
            columns,
            slices,
            ends,
            depth: 0,
        })
    }

    /// How many splits are open.
    pub(crate) fn depth(&self) -> usize
        ensures count { result ≡ length self.now.splits }
        ensures room { length self.now.splits ≤ 2 * self.now.columns }
    {
        self.depth
    }

    /// Lends the slices that lead to the node, the outermost first.
    pub(crate) fn path(&self) -> &[Slice]
        ensures path { result.now ≡ path_of self.now.splits }
        ensures short { length result.now ≤ 2 * self.now.columns }
        ensures dense { HasForms self.now.columns result.now }
    {
        &self.slices[..self.depth]
    }

    /// Opens a split at its first slice, that of the value `from`; `until` is the value behind its last one. It takes the
    /// form and leaves another one in its place.
    pub(crate) fn enter(&mut self, form: &mut Form<Original>, from: i128, until: i128)
        requires room { length self.old.splits < 2 * self.old.columns }
        requires dense { length form.old ≡ self.old.columns }
        requires low { neg_ℤ (pos (2 ^ 97)) ≤ℤ from }
        requires some { from <ℤ until }
        requires high { until ≤ℤ pos (2 ^ 99) }
        ensures entered { self.new ≡ record { columns = self.old.columns; splits = record { form = form.old; value = from; until = until } ∷ self.old.splits } }
        ensures dense { length form.new ≡ self.old.columns }
    {
        let slot = &mut self.slices[self.depth];
        mem::swap(&mut slot.form, form);
        slot.beta = from;
        self.ends[self.depth] = until;
        self.depth += 1;
    }

    /// Goes on to the next slice of the innermost split that has one, and leaves those that have none. Answers whether
    /// there was one.
    pub(crate) fn go_on(&mut self) -> bool
        ensures columns { self.new.columns ≡ self.old.columns }
        ensures behind { (claimed : Claim) → behind claimed self.old.splits ≡ stage_behind claimed result self.new.splits }
    {
        while self.depth > 0 {
            let last = self.depth - 1;
            let end = self.ends[last];
            let slice = &mut self.slices[last];
            let next = slice.beta + 1;
            if next != end {
                slice.beta = next;
                return true;
            }
            self.depth = last;
        }
        false
    }

    /// Forgets all splits.
    pub(crate) fn clear(&mut self)
        ensures { self.new ≡ record { columns = self.old.columns; splits = [] } }
    {
        self.depth = 0;
    }
}

/// Two slices for each column, whose forms have a factor for each column.
fn room(alloc: Global, columns: usize) -> Result<Vec<Slice>, NoMemory>
    requires { columns ≤ 256 }
    ensures count { IfOk result (λ slices. vec_len slices ≡ 2 * columns) }
    ensures dense { IfOk result (λ slices. HasForms columns slices.items) }
{
    let mut slices = Vec::with_capacity(alloc, 2 * columns)?;
    for _ in 0..2 * columns {
        let form = Form::of(vec![in alloc; 0; columns]?);
        slices.push(Slice { form, beta: 0 })?;
    }
    Ok(slices)
}
