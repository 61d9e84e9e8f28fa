//! The check of a proof.
ghost use Rattle.std.specs.Prelude.{◌≡◌, IfOk};
ghost use Rattle.int_model.specs.declared.model.Model.{Model};
ghost use Rattle.int_model.specs.IntegerRows.{value_in, integer_rows};
ghost use Rattle.tree_checker.specs.Accepts.{IsClaim};
ghost use Rattle.solve_cli.specs.declared.proof.Proof.TheVariants.{Nothing};
ghost use Rattle.solve_cli.specs.Report.{report_of, accepted_lines};
ghost use Rattle.solve_cli.specs.Verdict.{Checks};
ghost use Rattle.solve_cli.specs.Solving.{HasRows, Replies};

use crate::proof::Proof;
use crate::reply::{Reply, line_reply, reject_reply};
use crate::report::value_report;
use crate::status::{Input, Status};
use crate::take::MOST_PROOF_BYTES;
use int_model::IntRows;
use proof_text::Claim;
use sequence::NoMemory;
use std::alloc::Global;
use tree_checker::{Verdict, accepted_is_true, check};

// The reply to a proof that is accepted with this claim.
fn accepted_reply(alloc: Global, rows: &IntRows, claim: &Claim) -> Result<Reply, NoMemory>
    requires { IsClaim rows.now.whole claim.now }
    ensures status { IfOk result (λ reply. reply.status ≡ Status.Accepted) }
    ensures report { IfOk result (λ reply. reply.report.items ≡ report_of (accepted_lines (value_in rows.now) claim.now)) }
    ensures proof { IfOk result (λ reply. reply.proof ≡ Nothing) }
{
    match claim {
        Claim::Optimal(point) => Ok(Reply {
            status: Status::Accepted,
            report: value_report(alloc, b"ACCEPTED OPTIMAL", &rows.value(point.items()))?,
            proof: Proof::Nothing,
        }),
        Claim::Infeasible => line_reply(alloc, Status::Accepted, b"ACCEPTED INFEASIBLE"),
        Claim::Open => unreachable!(),
    }
}

/// Checks the text of a proof over the integer rows of a model.
pub(crate) fn check_text(alloc: Global, rows: &IntRows, text: &[u8]) -> Result<Reply, NoMemory>
    ensures { (model : Model) → rows.now ≡ integer_rows model → HasRows model → IfOk result (Replies (Checks text.now model)) }
{
    if text.len() > MOST_PROOF_BYTES {
        return line_reply(alloc, Status::TooLong(Input::ProofText), b"LIMIT PROOF");
    }
    let columns = rows.columns();
    prove!(columns <= 256);
    accepted_is_true();
    match check(alloc, rows.whole(), text)? {
        Verdict::Accepted(claim) => accepted_reply(alloc, rows, &claim),
        Verdict::Rejected(reject) => reject_reply(alloc, reject),
    }
}
