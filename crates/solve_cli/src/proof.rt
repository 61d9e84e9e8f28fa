//! What is shown for an answer, and how it is put into an output.
ghost use Rattle.std.specs.Prelude.{◌≤◌, length};
ghost use Rattle.proof_text.specs.Spelling.{in_lines, record_lines, head_lines, tree_lines, part_lines};
ghost use Rattle.solve_cli.specs.Answer.{desk_faults};
ghost use Rattle.solve_cli.specs.Outputs.{text_of};
ghost use Rattle.solve_cli.specs.Putting.{told_by, IsPut};

use desk_io::{Desk, DeskStop};
use proof_text::{Claim, Record, print_head, print_record};
use proof_tree::{PartTree, Tree};
use std::alloc::Global;

/// What is shown for an answer.
#[derive(Debug, Drop)]
pub(crate) enum Proof {
    /// Nothing.
    Nothing,
    /// The tree shows the claim.
    Whole(Claim, Tree),
    /// What was worked of a tree.
    Part(PartTree),
}

// Puts the lines of one node.
fn put_record<D: Desk>(
    alloc: Global,
    desk: &mut D,
    name: &str,
    item: &Record<'_>,
) -> Result<(), DeskStop>
    requires { length name.now ≤ 255 }
    ensures { IsPut name.now (in_lines (record_lines item.now)) result
        (told_by (D.left desk.old) (D.written desk.old) (D.said desk.old) (desk_faults (D.faults desk.old) (D.fault_at desk.old)))
        (told_by (D.left desk.new) (D.written desk.new) (D.said desk.new) (desk_faults (D.faults desk.new) (D.fault_at desk.new))) }
{
    let text = print_record(alloc, item)?;
    desk.put(name, text.items())
}

// Puts the lines of a tree, a node at a time.
fn put_tree<D: Desk>(alloc: Global, desk: &mut D, name: &str, tree: &Tree) -> Result<(), DeskStop>
    requires { length name.now ≤ 255 }
    ensures { IsPut name.now (in_lines (tree_lines tree.now)) result
        (told_by (D.left desk.old) (D.written desk.old) (D.said desk.old) (desk_faults (D.faults desk.old) (D.fault_at desk.old)))
        (told_by (D.left desk.new) (D.written desk.new) (D.said desk.new) (desk_faults (D.faults desk.new) (D.fault_at desk.new))) }
{
    match tree {
        Tree::Empty(line) => put_record(alloc, desk, name, &Record::Close(line)),
        Tree::Split(split) => {
            put_record(alloc, desk, name, &Record::Split(&split.cut))?;
            for child in &split.children.trees {
                put_tree(alloc, desk, name, child)?;
            }
            Ok(())
        }
    }
}

// Puts the lines of a part of a tree, a node at a time.
fn put_part<D: Desk>(
    alloc: Global,
    desk: &mut D,
    name: &str,
    part: &PartTree,
) -> Result<(), DeskStop>
    requires { length name.now ≤ 255 }
    ensures { IsPut name.now (in_lines (part_lines part.now)) result
        (told_by (D.left desk.old) (D.written desk.old) (D.said desk.old) (desk_faults (D.faults desk.old) (D.fault_at desk.old)))
        (told_by (D.left desk.new) (D.written desk.new) (D.said desk.new) (desk_faults (D.faults desk.new) (D.fault_at desk.new))) }
{
    match part {
        PartTree::Open(count) => put_record(alloc, desk, name, &Record::Run(*count)),
        PartTree::Empty(line) => put_record(alloc, desk, name, &Record::Close(line)),
        PartTree::Split(split) => {
            put_record(alloc, desk, name, &Record::Split(&split.cut))?;
            for child in &split.children {
                put_part(alloc, desk, name, child)?;
            }
            Ok(())
        }
    }
}

// Puts the head of a claim.
fn put_head<D: Desk>(alloc: Global, desk: &mut D, name: &str, claim: &Claim) -> Result<(), DeskStop>
    requires { length name.now ≤ 255 }
    ensures { IsPut name.now (in_lines (head_lines claim.now)) result
        (told_by (D.left desk.old) (D.written desk.old) (D.said desk.old) (desk_faults (D.faults desk.old) (D.fault_at desk.old)))
        (told_by (D.left desk.new) (D.written desk.new) (D.said desk.new) (desk_faults (D.faults desk.new) (D.fault_at desk.new))) }
{
    let text = print_head(alloc, claim)?;
    desk.put(name, text.items())
}

/// Puts the text of a proof into an output: its head, its nodes one after another, and its last line.
pub(crate) fn put_proof<D: Desk>(
    alloc: Global,
    desk: &mut D,
    name: &str,
    proof: &Proof,
) -> Result<(), DeskStop>
    requires { length name.now ≤ 255 }
    ensures { IsPut name.now (text_of proof.now) result
        (told_by (D.left desk.old) (D.written desk.old) (D.said desk.old) (desk_faults (D.faults desk.old) (D.fault_at desk.old)))
        (told_by (D.left desk.new) (D.written desk.new) (D.said desk.new) (desk_faults (D.faults desk.new) (D.fault_at desk.new))) }
{
    match proof {
        Proof::Nothing => Ok(()),
        Proof::Whole(claim, tree) => {
            put_head(alloc, desk, name, claim)?;
            put_tree(alloc, desk, name, tree)?;
            desk.put(name, b"DONE\n")
        }
        Proof::Part(part) => {
            put_head(alloc, desk, name, &Claim::Open)?;
            put_part(alloc, desk, name, part)?;
            desk.put(name, b"SPENT\n")
        }
    }
}
