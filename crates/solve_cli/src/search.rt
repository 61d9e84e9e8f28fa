//! The search of a model.
ghost use Rattle.std.specs.Prelude.{◌≡◌, ◌≤◌, ◌<◌, ◌^◌, ℕ, Bool, IfOk, IfSome};
ghost use Rattle.whole_rows.specs.WholeRows.{Meets, IsWithinLimits};
ghost use Rattle.proof_tree.specs.Found.{IsFound, IsDone, IsSpent};
ghost use Rattle.proof_tree.specs.Counts.{records, records_of_part};
ghost use Rattle.slice_branch.specs.Framed.{IsAllowed};
ghost use Rattle.int_model.specs.declared.model.Model.{Model as Program};
ghost use Rattle.int_model.specs.IntegerRows.{integer_rows};
ghost use Rattle.solve_cli.specs.Words.{most_nodes};
ghost use Rattle.solve_cli.specs.Verdict.{rows_of, Solves};
ghost use Rattle.solve_cli.specs.Solving.{HasRows, Replies};

use crate::counts::{count_part, count_tree};
use crate::proof::Proof;
use crate::reply::{Reply, point_report};
use crate::report::bare_report;
use crate::status::Status;
use int_model::{Column, IntRows};
use proof_text::Claim;
use proof_tree::{PartTree, Searched, Tree, search};
use sequence::NoMemory;
use slice_branch::SliceBrancher;
use spaces::{Original, Vect};
use std::alloc::Global;
use whole_rows::DenseRows;

// Searches rows by reformulation.
fn search_rows(alloc: Global, rows: &DenseRows, nodes: u32) -> Result<Searched, NoMemory>
    requires some { 1 ≤ nodes }
    ensures found { IfOk result (λ found. (plain : Bool) × IsFound (IsAllowed rows.now) rows.now plain nodes found) }
    ensures limits { IsWithinLimits rows.now }
{
    let columns = rows.columns();
    prove!(columns <= 256);
    let mut brancher = SliceBrancher::new(alloc, rows)?;
    let root = brancher.root()?;
    search(alloc, &mut brancher, root, rows, nodes)
}

// The reply to a search that was finished. The values of these columns are printed.
fn done_reply(
    alloc: Global,
    columns: &[Column],
    rows: &IntRows,
    tree: Tree,
    best: Option<Vect<Original>>,
) -> Result<Reply, NoMemory>
    requires known { IfSome best (Meets rows.now.whole) }
    requires counted { records tree < 2 ^ 64 }
    ensures { (plain : Bool) (nodes : ℕ) (model : Program) → rows.now ≡ integer_rows model → nodes ≤ most_nodes → HasRows model → IsWithinLimits (rows_of model)
        → IsDone (IsAllowed (rows_of model)) (rows_of model) plain nodes tree best → IfOk result (Replies (Solves columns.now nodes model)) }
{
    let counts = count_tree(&tree);
    match best {
        Some(point) => Ok(Reply {
            status: Status::Optimal,
            report: point_report(alloc, b"OPTIMAL", columns, rows, point.items(), counts)?,
            proof: Proof::Whole(Claim::Optimal(point), tree),
        }),
        None => Ok(Reply {
            status: Status::Infeasible,
            report: bare_report(alloc, b"INFEASIBLE", counts)?,
            proof: Proof::Whole(Claim::Infeasible, tree),
        }),
    }
}

// The reply to a search whose budget was spent. The values of these columns are printed.
fn spent_reply(
    alloc: Global,
    columns: &[Column],
    rows: &IntRows,
    part: PartTree,
    best: Option<Vect<Original>>,
) -> Result<Reply, NoMemory>
    requires known { IfSome best (Meets rows.now.whole) }
    requires counted { records_of_part part < 2 ^ 64 }
    ensures { (plain : Bool) (nodes : ℕ) (model : Program) → rows.now ≡ integer_rows model → HasRows model → IsSpent (IsAllowed (rows_of model)) (rows_of model) plain nodes part best
        → IfOk result (Replies (Solves columns.now nodes model)) }
{
    let counts = count_part(&part);
    match best {
        Some(point) => Ok(Reply {
            status: Status::Spent,
            report: point_report(alloc, b"SPENT", columns, rows, point.items(), counts)?,
            proof: Proof::Part(part),
        }),
        None => Ok(Reply {
            status: Status::Spent,
            report: bare_report(alloc, b"SPENT", counts)?,
            proof: Proof::Part(part),
        }),
    }
}

/// Searches a model, by its integer rows, with a budget of so many nodes. The reply prints the values of these columns.
pub(crate) fn search_model(
    alloc: Global,
    columns: &[Column],
    rows: &IntRows,
    nodes: u32,
) -> Result<Reply, NoMemory>
    requires some { 1 ≤ nodes }
    requires few { nodes ≤ most_nodes }
    ensures { (model : Program) → rows.now ≡ integer_rows model → HasRows model → IfOk result (Replies (Solves columns.now nodes model)) }
{
    match search_rows(alloc, rows.whole(), nodes)? {
        Searched::Done { tree, best } => done_reply(alloc, columns, rows, tree, best),
        Searched::Spent { part, best } => spent_reply(alloc, columns, rows, part, best),
    }
}
