//! What a run answers before it is said.
ghost use Rattle.std.specs.Prelude.{◌≡◌, ◌++◌, ◌∷◌, [], IfOk};
ghost use Rattle.whole_rows.specs.WholeRows.{Meets};
ghost use Rattle.int_model.specs.IntegerRows.{value_in};
ghost use Rattle.solve_cli.specs.declared.proof.Proof.TheVariants.{Nothing};
ghost use Rattle.solve_cli.specs.Report.{report_of, found_lines, limit_line, IsPartOf, text_line, reject_line};

use crate::counts::Counts;
use crate::proof::Proof;
use crate::report::{found_report, limit_report, line_report, reject_report, text_report};
use crate::status::Status;
use int_model::{Column, IntRows, Model, Part};
use mps_model::TextFault;
use sequence::NoMemory;
use std::alloc::Global;
use tree_checker::Reject;

/// A status, the report that is to be said with it, and the proof that is to be put before.
#[derive(Debug, Drop)]
pub(crate) struct Reply {
    pub(crate) status: Status,
    pub(crate) report: Vec<u8>,
    pub(crate) proof: Proof,
}

/// The reply of a status with one line.
pub(crate) fn line_reply(alloc: Global, status: Status, line: &[u8]) -> Result<Reply, NoMemory>
    ensures status { IfOk result (λ reply. reply.status ≡ status) }
    ensures report { IfOk result (λ reply. reply.report.items ≡ report_of (line.now ∷ [])) }
    ensures proof { IfOk result (λ reply. reply.proof ≡ Nothing) }
{
    Ok(Reply {
        status,
        report: line_report(alloc, line)?,
        proof: Proof::Nothing,
    })
}

/// The reply to a text with a fault.
pub(crate) fn text_reply(alloc: Global, fault: TextFault) -> Result<Reply, NoMemory>
    ensures status { IfOk result (λ reply. reply.status ≡ Status.Text fault) }
    ensures report { IfOk result (λ reply. reply.report.items ≡ report_of (text_line fault ∷ [])) }
    ensures proof { IfOk result (λ reply. reply.proof ≡ Nothing) }
{
    Ok(Reply {
        status: Status::Text(fault),
        report: text_report(alloc, fault)?,
        proof: Proof::Nothing,
    })
}

/// The reply to a model of which a part is too large.
pub(crate) fn limit_reply(alloc: Global, model: &Model, part: Part) -> Result<Reply, NoMemory>
    requires { IsPartOf model.now part }
    ensures status { IfOk result (λ reply. reply.status ≡ Status.Large part) }
    ensures report { IfOk result (λ reply. reply.report.items ≡ report_of (limit_line model.now part ∷ [])) }
    ensures proof { IfOk result (λ reply. reply.proof ≡ Nothing) }
{
    Ok(Reply {
        status: Status::Large(part),
        report: limit_report(alloc, model, part)?,
        proof: Proof::Nothing,
    })
}

/// The report of a search that found this point, with a line for each of these columns.
pub(crate) fn point_report(
    alloc: Global,
    head: &[u8],
    columns: &[Column],
    rows: &IntRows,
    point: &[i128],
    counts: Counts,
) -> Result<Vec<u8>, NoMemory>
    requires { Meets rows.now.whole point.now }
    ensures { IfOk result (λ report. report.items ≡ report_of (found_lines head.now (value_in rows.now point.now) columns.now point.now counts.nodes counts.plain)) }
{
    let value = rows.value(point);
    found_report(alloc, head, &value, columns, point, counts)
}

/// The reply to a proof that is refused.
pub(crate) fn reject_reply(alloc: Global, reject: Reject) -> Result<Reply, NoMemory>
    ensures status { IfOk result (λ reply. reply.status ≡ Status.Rejected reject) }
    ensures report { IfOk result (λ reply. reply.report.items ≡ report_of (reject_line reject ∷ [])) }
    ensures proof { IfOk result (λ reply. reply.proof ≡ Nothing) }
{
    Ok(Reply {
        status: Status::Rejected(reject),
        report: reject_report(alloc, reject)?,
        proof: Proof::Nothing,
    })
}
