//! A market that is made, put and solved.
ghost use Rattle.std.specs.Prelude.{◌≡◌, ◌≤◌, ℕ, List, [], Some, None, Ok as ok, length, IfOk, OnOk, MatchResult};
ghost use Rattle.int_model.specs.declared.model.Model.{Model as Program};
ghost use Rattle.mps_fields.specs.Lines.{most_bytes};
ghost use Rattle.mps_model.specs.declared.layout.Layout.TheVariants.{Free};
ghost use Rattle.mps_model.specs.Meaning.{meaning};
ghost use Rattle.mps_write.specs.PlainModels.{IsPlain};
ghost use Rattle.mps_write.specs.CanonicalText.{canonical_text};
ghost use Rattle.solve_cli.specs.Words.{IsMarket, market_job, command_of};
ghost use Rattle.solve_cli.specs.Verdict.{Solves, SumsUp};
ghost use Rattle.solve_cli.specs.Answer.{run_given, desk_faults, TakesInput};
ghost use Rattle.solve_cli.specs.Putting.{told_by, IsPut};
ghost use Rattle.solve_cli.specs.Solving.{Replies, IsReplied, StaysCalm, FailsAsTold};

use crate::file_name::FileName;
use crate::proof::put_proof;
use crate::reply::Reply;
use crate::report::market_report;
use crate::search::search_model;
use crate::stated::{Stated, rows_of};
use crate::status::Status;
use crate::words::DEFAULT_NODES;
use desk_io::{Desk, DeskStop};
use int_model::Model;
use mps_write::{market, write};
use sequence::NoMemory;
use std::alloc::Global;

// Puts the text of a plain model.
fn put_model<D: Desk>(
    alloc: Global,
    desk: &mut D,
    name: &str,
    model: &Model,
) -> Result<(), DeskStop>
    requires name { length name.now ≤ 255 }
    requires plain { IsPlain model.now }
    ensures put { IsPut name.now (canonical_text model.now) result
        (told_by (D.left desk.old) (D.written desk.old) (D.said desk.old) (desk_faults (D.faults desk.old) (D.fault_at desk.old)))
        (told_by (D.left desk.new) (D.written desk.new) (D.said desk.new) (desk_faults (D.faults desk.new) (D.fault_at desk.new))) }
    ensures states { OnOk result (meaning Free None (canonical_text model.now) ≡ ok model.now) }
    ensures short { OnOk result (length (canonical_text model.now) ≤ most_bytes) }
{
    let text = write(alloc, model)?;
    desk.put(name, text.items())
}

// Solves a model. The values of its columns are not printed.
fn solve_model(alloc: Global, model: Model) -> Result<Reply, NoMemory>
    requires { IsPlain model }
    ensures { IfOk result (Replies (Solves [] 1000 model)) }
{
    match rows_of(alloc, model)? {
        Stated::Stopped(reply) => Ok(reply),
        Stated::Rows(_, rows) => search_model(alloc, &[], &rows, DEFAULT_NODES),
    }
}

// Puts the line of a market in front of the report on it.
fn sum_up(alloc: Global, m: u32, n: u32, start: u32, reply: Reply) -> Result<Reply, NoMemory>
    ensures { (model : Program) → Replies (Solves [] 1000 model) reply → IfOk result (Replies (SumsUp m n start model)) }
{
    let Reply {
        status,
        report,
        proof,
    } = reply;
    Ok(Reply {
        status,
        report: market_report(alloc, m, n, start, &report)?,
        proof,
    })
}

/// Makes a market, puts its text, solves it, and puts the proof.
pub(crate) fn make_file<D: Desk>(
    alloc: Global,
    m: u32,
    n: u32,
    start: u32,
    model: &FileName,
    proof: &FileName,
    desk: &mut D,
) -> Result<Reply, DeskStop>
    requires { IsMarket m n start }
    ensures reason { (words : List (List ℕ)) → command_of words ≡ Some (market_job model.now proof.now m n start) → IsReplied
        (run_given words (D.left desk.old) (D.written desk.old) (D.faults desk.old))
        (desk_faults (D.faults desk.new) (D.fault_at desk.new)) (D.written desk.new) result }
    ensures inputs { (words : List (List ℕ)) → command_of words ≡ Some (market_job model.now proof.now m n start) → MatchResult result
        (λ reply. TakesInput (run_given words (D.left desk.old) (D.written desk.old) (D.faults desk.old)) (D.left desk.new) reply.status)
        (λ _. TakesInput (run_given words (D.left desk.old) (D.written desk.old) (D.faults desk.old)) (D.left desk.new) Status.NoMemory) }
    ensures said { D.said desk.new ≡ D.said desk.old }
    ensures later { D.faults desk.old ≤ D.faults desk.new }
    ensures calm { IfOk result (StaysCalm (desk_faults (D.faults desk.old) (D.fault_at desk.old)) (desk_faults (D.faults desk.new) (D.fault_at desk.new))) }
    ensures take { FailsAsTold result (desk_faults (D.faults desk.old) (D.fault_at desk.old)) (desk_faults (D.faults desk.new) (D.fault_at desk.new)) }
{
    let made = market(alloc, m, n, start)?;
    put_model(alloc, desk, model.text(), &made)?;
    let found = solve_model(alloc, made)?;
    let reply = sum_up(alloc, m, n, start, found)?;
    put_proof(alloc, desk, proof.text(), &reply.proof)?;
    Ok(reply)
}
