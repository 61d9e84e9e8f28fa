//! A proof text, read.
ghost use Rattle.std.specs.Prelude.{◌≡◌, ℕ, ◌+◌, ◌*◌, ◌≤◌, ◌^◌, ◌↔◌, pos, ◌≤ℤ◌, List, ◌∷◌, length, IsTrue, MatchOption, IfOk};
ghost use Rattle.std.specs.Option.{IsSomeAnd};
ghost use Rattle.whole_rows.specs.WholeRows.{IsWithinLimits};
ghost use Rattle.proof_tree.specs.declared.tree.Tree.{Tree};
ghost use Rattle.proof_text.specs.declared.claim.Claim.{Claim};
ghost use Rattle.proof_text.specs.OneReading.{IsSameTree};
ghost use Rattle.proof_text.specs.Printable.{Spells};
ghost use Rattle.proof_text.specs.Reads.{SpellsTree, SpellsTrees};

use crate::claim::Claim;
use crate::heads::{ends, read_head};
use crate::lines::Lines;
use crate::multipliers::read_line;
use crate::splits::read_cut;
use proof_tree::{Forest, Split, Tree};
use sequence::NoMemory;
use std::alloc::Global;
use whole_rows::DenseRows;

/// What a proof text says: a claim, and a tree that is to show it.
#[derive(Debug, Drop)]
pub struct Proof {
    pub claim: Claim,
    pub tree: Tree,
}

/// The claim and the tree that a text spells over these rows. None where it spells none: where its lines are not those of
/// the grammar, a number is not in its range, or its claim is open. What is spelled has one reading.
///
/// The text has at most 2 to the power 32 bytes.
pub fn read_proof(alloc: Global, rows: &DenseRows, text: &[u8]) -> Result<Option<Proof>, NoMemory>
    requires { length text.now ≤ 2 ^ 32 }
    ensures read { IfOk result (λ read. MatchOption read ((claim : Claim) (tree : Tree) → ¬ Spells rows.now text.now claim tree) (λ proof. Spells rows.now text.now proof.claim proof.tree)) }
    ensures again { (claim : Claim) (tree : Tree) → Spells rows.now text.now claim tree → IfOk result (λ read. IsSomeAnd read (λ proof. (proof.claim ≡ claim) × IsSameTree proof.tree tree)) }
{
    let mut lines = Lines::of(text);
    let Some(claim) = read_head(alloc, rows.columns(), &mut lines)? else {
        return Ok(None);
    };
    let Some(tree) = read_tree(alloc, rows, 0, &mut lines)? else {
        return Ok(None);
    };
    if !ends(lines) {
        return Ok(None);
    }
    Ok(Some(Proof { claim, tree }))
}

/// Whether a line is that of a node that is closed, by its first byte.
fn is_closing(text: &[u8]) -> bool
    ensures { IsTrue result ↔ ((rest : List ℕ) × (text.now ≡ 69 ∷ rest)) }
{
    matches!(text, [b'E', ..])
}

/// The tree of a node below so many splits that the first lines spell.
#[cycle(read)]
fn read_tree(
    alloc: Global,
    rows: &DenseRows,
    depth: usize,
    lines: &mut Lines<'_>,
) -> Result<Option<Tree>, NoMemory>
    requires limits { IsWithinLimits rows.now }
    requires room { 3 * depth + length lines.old ≤ 2 ^ 32 + 1 }
    ensures { IfOk result (λ read. MatchOption read ((tree : Tree) (rest : List (List ℕ)) → ¬ SpellsTree rows.now depth lines.old rest tree) (SpellsTree rows.now depth lines.old lines.new)) }
{
    let Some(text) = lines.next() else {
        return Ok(None);
    };
    if is_closing(text) {
        return match read_line(alloc, rows, depth, false, b'E', text)? {
            Some(line) => Ok(Some(Tree::Empty(line))),
            None => Ok(None),
        };
    }
    let Some(cut) = read_cut(alloc, rows, depth, text, lines)? else {
        return Ok(None);
    };
    let Some(trees) = read_trees(alloc, rows, depth + 1, cut.count, lines)? else {
        return Ok(None);
    };
    let children = Forest { trees };
    let split = Box::new(alloc, Split { cut, children })?;
    Ok(Some(Tree::Split(split)))
}

/// So many trees of nodes below so many splits that the first lines spell. Each takes a line or more, so a large number
/// with few lines ends soon.
#[cycle(read)]
fn read_trees(
    alloc: Global,
    rows: &DenseRows,
    depth: usize,
    count: i128,
    lines: &mut Lines<'_>,
) -> Result<Option<Vec<Tree>>, NoMemory>
    requires limits { IsWithinLimits rows.now }
    requires room { 3 * depth + length lines.old ≤ 2 ^ 32 + 1 }
    requires count { (pos 0 ≤ℤ count) × (count ≤ℤ pos (2 ^ 98)) }
    ensures { IfOk result (λ read. MatchOption read ((trees : List Tree) (rest : List (List ℕ)) → ¬ SpellsTrees rows.now depth count lines.old rest trees) (λ trees. SpellsTrees rows.now depth count lines.old lines.new trees.items)) }
{
    let mut trees = Vec::new(alloc);
    let mut left = count;
    while left > 0 {
        let Some(tree) = read_tree(alloc, rows, depth, lines)? else {
            return Ok(None);
        };
        trees.push(tree)?;
        left -= 1;
    }
    Ok(Some(trees))
}
