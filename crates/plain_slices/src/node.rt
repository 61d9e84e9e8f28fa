//! A node with the box that the slices of single columns leave.
ghost use Rattle.std.specs.Prelude.{◌≡◌, ◌^◌, ◌+◌, ◌<◌, length, take, slice_set, vec_len, map, All, IfOk, OnOk};
ghost use Rattle.whole_rows.specs.WholeRows.{IsWithinLimits};
ghost use Rattle.std.specs.List.{range_with_len};
ghost use Rattle.farkas_rows.specs.Refutes.{HasForms};
ghost use Rattle.proof_tree.specs.Trees.{IsShort, IsOfSize};
ghost use Rattle.plain_slices.specs.Nodes.{bounds_fixed, box_source};

use crate::single::single_column;
use farkas_rows::Path;
use sequence::NoMemory;
use std::alloc::Global;
use whole_rows::{Bounds, DenseRows};

/// The numbers of the inequalities that bound a column from above and from below, and whether a slice fixes it.
#[derive(Clone, Copy, Debug, Drop)]
pub(crate) struct Source {
    pub(crate) above: u32,
    pub(crate) below: u32,
    pub(crate) is_fixed: bool,
}

impl Source {
    ghost use Rattle.plain_slices.specs.Nodes.{source_fixed};

    /// The source once the column is fixed at a value by two inequalities: each bound that is looser gives way to one.
    fn fixed(self, bounds: Bounds, value: i128, above: u32, below: u32) -> Source
        ensures { result ≡ source_fixed bounds self value above below }
    {
        Source {
            above: if value < bounds.high {
                above
            } else {
                self.above
            },
            below: if bounds.low < value {
                below
            } else {
                self.below
            },
            is_fixed: true,
        }
    }
}

/// A node, and for each column the bounds that the box and the slices of that column alone leave.
#[derive(Drop)]
pub(crate) struct Node<'a> {
    pub(crate) rows: &'a DenseRows,
    pub(crate) path: &'a Path,
    pub(crate) bounds: Vec<Bounds>,
    pub(crate) sources: Vec<Source>,
}

impl<'a> Node<'a> {
    ghost use Rattle.plain_slices.specs.Nodes.{IsNarrowed, narrowed_at, source_at, bounds_fixed, source_fixed};

    /// The node of this path.
    pub(crate) fn of(
        alloc: Global,
        rows: &'a DenseRows,
        path: &'a Path,
    ) -> Result<Node<'a>, NoMemory>
        requires short { IsShort rows.now path.now }
        requires forms { HasForms (length rows.now.box) path.now }
        requires values { All (λ slice. IsOfSize (2 ^ 98) slice.beta) path.now }
        ensures rows { IfOk result (λ node. node.rows.now ≡ rows.now) }
        ensures path { IfOk result (λ node. node.path.now ≡ path.now) }
        ensures limits { OnOk result (IsWithinLimits rows.now) }
        ensures narrowed { IfOk result (λ node. IsNarrowed rows.now path.now path.now node.bounds.items node.sources.items) }
    {
        let bounds = rows.bounds().to_vec(alloc)?;
        let sources = box_sources(alloc, rows)?;
        let mut node = Node {
            rows,
            path,
            bounds,
            sources,
        };
        for e in 0..path.items().len() {
            node.narrow(e);
        }
        Ok(node)
    }

    /// Narrows the box by slice `e`, where it fixes a column.
    fn narrow(&mut self, e: usize)
        requires slice { e < length self.old.path.now }
        requires short { IsShort self.old.rows.now self.old.path.now }
        requires forms { HasForms (length self.old.rows.now.box) self.old.path.now }
        requires values { All (λ slice. IsOfSize (2 ^ 98) slice.beta) self.old.path.now }
        requires narrowed { IsNarrowed self.old.rows.now self.old.path.now (take e self.old.path.now) self.old.bounds.items self.old.sources.items }
        ensures rows { self.new.rows.now ≡ self.old.rows.now }
        ensures path { self.new.path.now ≡ self.old.path.now }
        ensures narrowed { IsNarrowed self.old.rows.now self.old.path.now (take (e + 1) self.old.path.now) self.new.bounds.items self.new.sources.items }
    {
        let path = self.path;
        let slice = &path.items()[e];
        let number = (2 * (self.rows.rows() + self.rows.columns() + e)) as u32;
        let Some(single) = single_column(slice.form.items()) else {
            return;
        };
        if single.is_negative {
            self.fix(single.column, -slice.beta, number + 1, number);
        } else {
            self.fix(single.column, slice.beta, number, number + 1);
        }
    }

    /// Fixes a column at a value by two inequalities.
    fn fix(&mut self, column: usize, value: i128, above: u32, below: u32)
        requires bounds { column < vec_len self.old.bounds }
        requires sources { column < vec_len self.old.sources }
        ensures rows { self.new.rows.now ≡ self.old.rows.now }
        ensures path { self.new.path.now ≡ self.old.path.now }
        ensures bounds { self.new.bounds.items ≡ slice_set self.old.bounds.items column (bounds_fixed (narrowed_at self.old.bounds.items column) value) }
        ensures sources { self.new.sources.items ≡ slice_set self.old.sources.items column
            (source_fixed (narrowed_at self.old.bounds.items column) (source_at self.old.sources.items column) value above below) }
    {
        let bounds = self.bounds[column];
        let source = self.sources[column];
        self.sources[column] = source.fixed(bounds, value, above, below);
        self.bounds[column] = fixed(bounds, value);
    }
}

/// The bounds once the column is fixed at a value: each one that is looser gives way to it.
fn fixed(bounds: Bounds, value: i128) -> Bounds
    ensures { result ≡ bounds_fixed bounds value }
{
    Bounds {
        low: if bounds.low < value {
            value
        } else {
            bounds.low
        },
        high: if value < bounds.high {
            value
        } else {
            bounds.high
        },
    }
}

/// Where the bounds of the box come from.
fn box_sources(alloc: Global, rows: &DenseRows) -> Result<Vec<Source>, NoMemory>
    ensures { IfOk result (λ sources. sources.items ≡ map (box_source (length rows.now.rows)) (range_with_len 0 (length rows.now.box))) }
{
    let first = 2 * rows.rows();
    let mut sources = Vec::new(alloc);
    for column in 0..rows.columns() {
        let number = (first + 2 * column) as u32;
        sources.push(Source {
            above: number,
            below: number + 1,
            is_fixed: false,
        })?;
    }
    Ok(sources)
}
