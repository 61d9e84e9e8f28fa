//! An input, taken to its end or to one byte past a limit.
ghost use Rattle.std.specs.Prelude.{◌≡◌, ◌≤◌, ◌<◌, ◌^◌, length, option_map, IfOk, OnOk, IfSome, IsErrOf};
ghost use Rattle.desk_io.specs.Desk.{fault, Same, SameButAt};
ghost use Rattle.desk_io.specs.declared.desk.Call.TheVariants.{Take};
ghost use Rattle.solve_cli.specs.Limits.{taken, untaken};
ghost use Rattle.solve_cli.specs.Taking.{IsReadFault, IsUnmoved};
ghost use Rattle.solve_cli.specs.declared.take.TakeStop.TheVariants.{Failed as failed, NoMemory as no_memory};

use desk_io::{Desk, Failed};
use std::alloc::{AllocError, Global};

/// The greatest number of bytes of the text of a model, as the reader of models has it.
pub(crate) const MOST_TEXT_BYTES: usize = 16_777_216;

/// The greatest number of bytes of the text of a proof, 2^28.
pub(crate) const MOST_PROOF_BYTES: usize = 268_435_456;

const PIECE_BYTES: usize = 4_096;

/// Why an input was not taken.
#[derive(Clone, Copy, Debug, Drop, PartialEq, Eq)]
pub(crate) enum TakeStop {
    Failed,
    NoMemory,
}

impl From<Failed> for TakeStop {
    ghost from_gives = { λ _ stop. stop ≡ failed };

    fn from(_: Failed) -> Self {
        TakeStop::Failed
    }
}

impl From<AllocError> for TakeStop {
    ghost from_gives = { λ _ stop. stop ≡ no_memory };

    fn from(_: AllocError) -> Self {
        TakeStop::NoMemory
    }
}

/// Takes an input to its end, or to one byte past the limit.
pub(crate) fn take_text<D: Desk>(
    alloc: Global,
    desk: &mut D,
    name: &str,
    limit: usize,
) -> Result<Vec<u8>, TakeStop>
    requires name { length name.now ≤ 255 }
    requires limit { limit < 2 ^ 32 }
    ensures text { IfOk result (λ text. IfSome (D.left desk.old name.now) (λ left. text.items ≡ taken limit left)) }
    ensures left { OnOk result (D.left desk.new name.now ≡ option_map (untaken limit) (D.left desk.old name.now)) }
    ensures others { SameButAt name.now (D.left desk.old) (D.left desk.new) }
    ensures outputs { Same (D.written desk.old) (D.written desk.new) }
    ensures said { D.said desk.new ≡ D.said desk.old }
    ensures later { D.faults desk.old ≤ D.faults desk.new }
    ensures failed { IsReadFault name.now (D.faults desk.old) (D.faults desk.new) (D.fault_at desk.new) result }
    ensures kept { IsUnmoved (D.faults desk.old) (D.faults desk.new) (D.fault_at desk.old) (D.fault_at desk.new) result }
{
    let mut text = Vec::new(alloc);
    let mut piece = [0u8; PIECE_BYTES];
    let mut ended = false;
    while !ended && text.len() <= limit {
        let room = PIECE_BYTES.min(limit + 1 - text.len());
        let count = desk.take(name, &mut piece[..room])?;
        text.extend_from_slice(&piece[..count])?;
        ended = count == 0;
    }
    Ok(text)
}
