//! The run of the program.
ghost use Rattle.std.specs.Prelude.{◌≡◌, ◌≤◌, ℕ, ◌∷◌, [], List, pos, ◌≤ℤ◌, Some, map, option_map, IfSome, IfOk, MatchResult, string_bytes};
ghost use Rattle.desk_io.specs.Desk.{Same, SameButAt};
ghost use Rattle.int_model.specs.declared.model.Model.{Model};
ghost use Rattle.int_model.specs.IntegerRows.{integer_rows};
ghost use Rattle.mps_fields.specs.Lines.{most_bytes};
ghost use Rattle.solve_cli.specs.Words.{most_nodes, reading as reading_of, solving, checking, job, command_of};
ghost use Rattle.solve_cli.specs.Limits.{most_proof_bytes, untaken};
ghost use Rattle.solve_cli.specs.Verdict.{Checks};
ghost use Rattle.solve_cli.specs.Answer.{run_given, desk_faults, Answer, IsJudged, IsOfProof, IsCalm, KeepsFaults, FailedInWrite, TakesInput, IsComplete, AnswersMarket};
ghost use Rattle.solve_cli.specs.Headline.{Headline};
ghost use Rattle.solve_cli.specs.Solving.{HasRows, Replies, IsReplied, IsSaid, IsRead, IsModelTaken, IsTried, StaysCalm, LeavesCalm, FailsInTake, FailsAsTold};

use crate::check::check_text;
use crate::file_name::FileName;
use crate::market_file::make_file;
use crate::proof::put_proof;
use crate::reply::{Reply, line_reply};
use crate::search::search_model;
use crate::stated::{Stated, state};
use crate::status::Status;
use crate::take::{MOST_PROOF_BYTES, MOST_TEXT_BYTES, TakeStop, take_text};
use crate::words::{Command, WordsStop, read_words};
use desk_io::{Desk, DeskStop};
use int_model::IntRows;
use mps_model::Layout;
use sequence::NoMemory;
use std::alloc::Global;

// Takes the text of the model from the desk, and judges it.
fn take_model<D: Desk>(
    alloc: Global,
    layout: Layout,
    upper: Option<i128>,
    name: &FileName,
    desk: &mut D,
) -> Result<Stated, NoMemory>
    requires { IfSome upper (λ bound. pos 0 ≤ℤ bound) }
    ensures model { IfOk result (IsModelTaken (reading_of layout upper) name.now (D.faults desk.old) (desk_faults (D.faults desk.new) (D.fault_at desk.new)) (D.left desk.old name.now)) }
    ensures left { IfOk result (λ stated. IsRead stated → D.left desk.new name.now ≡ option_map (untaken most_bytes) (D.left desk.old name.now)) }
    ensures others { SameButAt name.now (D.left desk.old) (D.left desk.new) }
    ensures outputs { Same (D.written desk.old) (D.written desk.new) }
    ensures said { D.said desk.new ≡ D.said desk.old }
    ensures later { D.faults desk.old ≤ D.faults desk.new }
    ensures calm { IfOk result (LeavesCalm (desk_faults (D.faults desk.old) (D.fault_at desk.old)) (desk_faults (D.faults desk.new) (D.fault_at desk.new))) }
    ensures take { FailsInTake (desk_faults (D.faults desk.old) (D.fault_at desk.old)) (desk_faults (D.faults desk.new) (D.fault_at desk.new)) }
{
    match take_text(alloc, desk, name.text(), MOST_TEXT_BYTES) {
        Ok(text) => state(alloc, layout, upper, &text),
        Err(TakeStop::Failed) => Ok(Stated::Stopped(line_reply(
            alloc,
            Status::ReadFault,
            b"READFAULT",
        )?)),
        Err(TakeStop::NoMemory) => Err(NoMemory),
    }
}

// Takes the text of a proof from the desk, and checks it over the integer rows of a model.
fn take_proof<D: Desk>(
    alloc: Global,
    rows: &IntRows,
    name: &FileName,
    desk: &mut D,
) -> Result<Reply, NoMemory>
    ensures reply { (model : Model) → rows.now ≡ integer_rows model → HasRows model → IfOk result (Replies
        (IsTried name.now (D.faults desk.old) (desk_faults (D.faults desk.new) (D.fault_at desk.new)) (D.left desk.old name.now) (λ text. Checks text model))) }
    ensures left { IfOk result (λ reply. IsOfProof reply.status → D.left desk.new name.now ≡ option_map (untaken most_proof_bytes) (D.left desk.old name.now)) }
    ensures others { SameButAt name.now (D.left desk.old) (D.left desk.new) }
    ensures outputs { Same (D.written desk.old) (D.written desk.new) }
    ensures said { D.said desk.new ≡ D.said desk.old }
    ensures later { D.faults desk.old ≤ D.faults desk.new }
    ensures calm { IfOk result (StaysCalm (desk_faults (D.faults desk.old) (D.fault_at desk.old)) (desk_faults (D.faults desk.new) (D.fault_at desk.new))) }
    ensures take { FailsInTake (desk_faults (D.faults desk.old) (D.fault_at desk.old)) (desk_faults (D.faults desk.new) (D.fault_at desk.new)) }
{
    match take_text(alloc, desk, name.text(), MOST_PROOF_BYTES) {
        Ok(text) => check_text(alloc, rows, &text),
        Err(TakeStop::Failed) => line_reply(alloc, Status::ReadFault, b"READFAULT"),
        Err(TakeStop::NoMemory) => Err(NoMemory),
    }
}

// Takes the model, solves it, and puts the proof.
fn solve_file<D: Desk>(
    alloc: Global,
    layout: Layout,
    upper: Option<i128>,
    nodes: u32,
    model: &FileName,
    proof: &FileName,
    desk: &mut D,
) -> Result<Reply, DeskStop>
    requires upper { IfSome upper (λ bound. pos 0 ≤ℤ bound) }
    requires some { 1 ≤ nodes }
    requires few { nodes ≤ most_nodes }
    ensures reason { (words : List (List ℕ)) → command_of words ≡ Some (job (solving nodes) layout upper model.now proof.now) → IsReplied
        (run_given words (D.left desk.old) (D.written desk.old) (D.faults desk.old))
        (desk_faults (D.faults desk.new) (D.fault_at desk.new)) (D.written desk.new) result }
    ensures inputs { (words : List (List ℕ)) → command_of words ≡ Some (job (solving nodes) layout upper model.now proof.now) → MatchResult result
        (λ reply. TakesInput (run_given words (D.left desk.old) (D.written desk.old) (D.faults desk.old)) (D.left desk.new) reply.status)
        (λ _. TakesInput (run_given words (D.left desk.old) (D.written desk.old) (D.faults desk.old)) (D.left desk.new) Status.NoMemory) }
    ensures said { D.said desk.new ≡ D.said desk.old }
    ensures later { D.faults desk.old ≤ D.faults desk.new }
    ensures calm { IfOk result (StaysCalm (desk_faults (D.faults desk.old) (D.fault_at desk.old)) (desk_faults (D.faults desk.new) (D.fault_at desk.new))) }
    ensures take { FailsAsTold result (desk_faults (D.faults desk.old) (D.fault_at desk.old)) (desk_faults (D.faults desk.new) (D.fault_at desk.new)) }
{
    match take_model(alloc, layout, upper, model, desk)? {
        Stated::Stopped(reply) => Ok(reply),
        Stated::Rows(model, rows) => {
            let reply = search_model(alloc, model.columns.items(), &rows, nodes)?;
            put_proof(alloc, desk, proof.text(), &reply.proof)?;
            Ok(reply)
        }
    }
}

// Takes the model, and then the proof, and checks it.
fn check_files<D: Desk>(
    alloc: Global,
    layout: Layout,
    upper: Option<i128>,
    model: &FileName,
    proof: &FileName,
    desk: &mut D,
) -> Result<Reply, DeskStop>
    requires { IfSome upper (λ bound. pos 0 ≤ℤ bound) }
    ensures reason { (words : List (List ℕ)) → command_of words ≡ Some (job checking layout upper model.now proof.now) → IsReplied
        (run_given words (D.left desk.old) (D.written desk.old) (D.faults desk.old))
        (desk_faults (D.faults desk.new) (D.fault_at desk.new)) (D.written desk.new) result }
    ensures inputs { (words : List (List ℕ)) → command_of words ≡ Some (job checking layout upper model.now proof.now) → MatchResult result
        (λ reply. TakesInput (run_given words (D.left desk.old) (D.written desk.old) (D.faults desk.old)) (D.left desk.new) reply.status)
        (λ _. TakesInput (run_given words (D.left desk.old) (D.written desk.old) (D.faults desk.old)) (D.left desk.new) Status.NoMemory) }
    ensures said { D.said desk.new ≡ D.said desk.old }
    ensures later { D.faults desk.old ≤ D.faults desk.new }
    ensures calm { IfOk result (StaysCalm (desk_faults (D.faults desk.old) (D.fault_at desk.old)) (desk_faults (D.faults desk.new) (D.fault_at desk.new))) }
    ensures take { FailsAsTold result (desk_faults (D.faults desk.old) (D.fault_at desk.old)) (desk_faults (D.faults desk.new) (D.fault_at desk.new)) }
{
    match take_model(alloc, layout, upper, model, desk)? {
        Stated::Stopped(reply) => Ok(reply),
        Stated::Rows(_, rows) => Ok(take_proof(alloc, &rows, proof, desk)?),
    }
}

// What is to be said to the words, once a proof is put or checked.
fn reply_to<D: Desk>(alloc: Global, words: &Vec<String>, desk: &mut D) -> Result<Reply, DeskStop>
    ensures reason { IsReplied
        (run_given (map string_bytes words.now.items) (D.left desk.old) (D.written desk.old) (D.faults desk.old))
        (desk_faults (D.faults desk.new) (D.fault_at desk.new)) (D.written desk.new) result }
    ensures inputs { MatchResult result
        (λ reply. TakesInput (run_given (map string_bytes words.now.items) (D.left desk.old) (D.written desk.old) (D.faults desk.old)) (D.left desk.new) reply.status)
        (λ _. TakesInput (run_given (map string_bytes words.now.items) (D.left desk.old) (D.written desk.old) (D.faults desk.old)) (D.left desk.new) Status.NoMemory) }
    ensures said { D.said desk.new ≡ D.said desk.old }
    ensures later { D.faults desk.old ≤ D.faults desk.new }
    ensures calm { IfOk result (StaysCalm (desk_faults (D.faults desk.old) (D.fault_at desk.old)) (desk_faults (D.faults desk.new) (D.fault_at desk.new))) }
    ensures take { FailsAsTold result (desk_faults (D.faults desk.old) (D.fault_at desk.old)) (desk_faults (D.faults desk.new) (D.fault_at desk.new)) }
{
    let command = match read_words(alloc, words) {
        Ok(command) => command,
        Err(WordsStop::Words) => return Ok(line_reply(alloc, Status::Words, b"WORDS")?),
        Err(WordsStop::NoMemory) => return Err(DeskStop::NoMemory),
    };
    match command {
        Command::Solve {
            layout,
            upper,
            nodes,
            model,
            proof,
        } => solve_file(alloc, layout, upper, nodes, &model, &proof, desk),
        Command::Check {
            layout,
            upper,
            model,
            proof,
        } => check_files(alloc, layout, upper, &model, &proof, desk),
        Command::Market {
            m,
            n,
            start,
            model,
            proof,
        } => make_file(alloc, m, n, start, &model, &proof, desk),
    }
}

// Says a report, and answers its status where all of it was said.
fn say<D: Desk>(desk: &mut D, report: &[u8], status: Status) -> Status
    ensures said { IsSaid report.now status
        (desk_faults (D.faults desk.old) (D.fault_at desk.old)) (desk_faults (D.faults desk.new) (D.fault_at desk.new))
        (D.said desk.old) (D.said desk.new) result }
    ensures inputs { Same (D.left desk.old) (D.left desk.new) }
    ensures outputs { Same (D.written desk.old) (D.written desk.new) }
{
    match desk.say(report) {
        Ok(()) => status,
        Err(DeskStop::Failed) => Status::WriteFault,
        Err(DeskStop::NoMemory) => Status::NoMemory,
    }
}

/// Runs the command that the words spell: takes its inputs from the desk, or makes a market and puts its text; puts the proof of a
/// model that it solved, says the report, and answers the status.
pub fn run<D: Desk>(alloc: Global, words: &Vec<String>, desk: &mut D) -> Status
    // Each status has its reason, what is said is its report, what is put into PROOF is its proof, and what is put into MODEL is the
    // market that a command makes.
    ensures answer { Answer
        (run_given (map string_bytes words.now.items) (D.left desk.old) (D.written desk.old) (D.faults desk.old))
        (desk_faults (D.faults desk.new) (D.fault_at desk.new)) (D.written desk.new)
        (D.said desk.old) (D.said desk.new) result }

    // The headline: OPTIMAL, INFEASIBLE and ACCEPTED are true of the model that MODEL states.
    ensures headline { Headline
        (run_given (map string_bytes words.now.items) (D.left desk.old) (D.written desk.old) (D.faults desk.old)) (D.written desk.new)
        (D.said desk.old) (D.said desk.new) result }

    // The words, the text of the model and that of a proof to be checked decide the status, unless a fault rises or memory runs out.
    ensures complete { IsComplete
        (run_given (map string_bytes words.now.items) (D.left desk.old) (D.written desk.old) (D.faults desk.old))
        (desk_faults (D.faults desk.new) (D.fault_at desk.new)) result }

    // A status that tells no fault and no want of memory leaves the desk's faults as they were: no call failed and was
    // made again.
    ensures calm { IsCalm result → KeepsFaults (desk_faults (D.faults desk.old) (D.fault_at desk.old)) (desk_faults (D.faults desk.new) (D.fault_at desk.new)) }

    // And where the last fault of the run is a say or a put, the status tells it.
    ensures write { FailedInWrite (desk_faults (D.faults desk.old) (D.fault_at desk.old)) (desk_faults (D.faults desk.new) (D.fault_at desk.new)) → result ≡ Status.WriteFault }

    ensures inputs { TakesInput (run_given (map string_bytes words.now.items) (D.left desk.old) (D.written desk.old) (D.faults desk.old)) (D.left desk.new) result }

    // A market that is made has no fault, and nothing is read.
    ensures market { AnswersMarket (run_given (map string_bytes words.now.items) (D.left desk.old) (D.written desk.old) (D.faults desk.old)) result }
{
    match reply_to(alloc, words, desk) {
        Ok(reply) => say(desk, &reply.report, reply.status),
        Err(DeskStop::Failed) => Status::WriteFault,
        Err(DeskStop::NoMemory) => say(desk, b"NOMEMORY\n", Status::NoMemory),
    }
}
