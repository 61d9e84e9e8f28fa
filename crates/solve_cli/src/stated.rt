//! The model that a text states, with its integer rows.
ghost use Rattle.std.specs.Prelude.{◌≡◌, ◌≤ℤ◌, pos, List, length, IfSome, IfOk};
ghost use Rattle.mps_model.specs.ModelLimits.{KeepsLimits};
ghost use Rattle.mps_fields.specs.Lines.{most_bytes};
ghost use Rattle.solve_cli.specs.Words.{reading as reading_of};
ghost use Rattle.solve_cli.specs.Solving.{IsRowed, IsStatedAs};

use crate::reply::{Reply, limit_reply, line_reply, text_reply};
use crate::status::{Input, Status};
use crate::take::MOST_TEXT_BYTES;
use int_model::{IntRows, Model, RowsStop};
use mps_model::{Layout, ReadStop, read};
use sequence::NoMemory;
use std::alloc::Global;

/// What came of the text of a model.
#[derive(Debug, Drop)]
pub(crate) enum Stated {
    /// The model that it states, and its integer rows.
    Rows(Model, IntRows),
    /// The reply to it: it has a fault, or is too long, or a part of its model is too large.
    Stopped(Reply),
}

/// Makes the integer rows of a model.
pub(crate) fn rows_of(alloc: Global, model: Model) -> Result<Stated, NoMemory>
    requires { KeepsLimits model }
    ensures { IfOk result (IsRowed model) }
{
    match IntRows::of(alloc, &model) {
        Ok(rows) => Ok(Stated::Rows(model, rows)),
        Err(RowsStop::Large(part)) => Ok(Stated::Stopped(limit_reply(alloc, &model, part)?)),
        Err(RowsStop::NoMemory) => Err(NoMemory),
    }
}

/// Judges the text of a model, and makes the integer rows of the model that it states.
pub(crate) fn state(
    alloc: Global,
    layout: Layout,
    upper: Option<i128>,
    text: &[u8],
) -> Result<Stated, NoMemory>
    requires { IfSome upper (λ bound. pos 0 ≤ℤ bound) }
    ensures { IfOk result (IsStatedAs (reading_of layout upper) text.now) }
{
    if text.len() > MOST_TEXT_BYTES {
        let status = Status::TooLong(Input::ModelText);
        return Ok(Stated::Stopped(line_reply(alloc, status, b"LIMIT MODEL")?));
    }
    match read(alloc, layout, upper, text) {
        Ok(model) => rows_of(alloc, model),
        Err(ReadStop::Fault(fault)) => Ok(Stated::Stopped(text_reply(alloc, fault)?)),
        Err(ReadStop::NoMemory) => Err(NoMemory),
    }
}
