//! What the next line is to be.
ghost use Rattle.std.specs.Prelude.{◌≡◌, Ok, Err, MatchOption};

use crate::opening::Range;
use crate::verdict::RejectKind;

/// What the next line is to be.
#[derive(Clone, Copy, Drop)]
pub(crate) enum Step {
    /// The line `SLICER 1`.
    Head,
    /// The claim.
    Claim,
    /// The line of a node, or the first line of a split.
    Node,
    /// The line of the end below the slices of a split.
    Below(Range),
    /// The line of the end above them.
    Above(Range),
    /// The line `DONE`.
    Done,
    /// No line is to come.
    End,
}

/// Takes the next step, or answers why there is none.
pub(crate) fn settle(step: &mut Step, judged: Result<Step, RejectKind>) -> Option<RejectKind>
    ensures { MatchOption result (judged ≡ Ok step.new) (λ kind. (judged ≡ Err kind) × (step.new ≡ step.old)) }
{
    match judged {
        Ok(next) => {
            *step = next;
            None
        }
        Err(kind) => Some(kind),
    }
}
