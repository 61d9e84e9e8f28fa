//! What a run answers.
ghost use Rattle.std.specs.Prelude.{◌≡◌};

use int_model::Part;
use mps_model::TextFault;
use tree_checker::Reject;

/// An input of a run.
#[derive(Clone, Copy, Debug, Drop, PartialEq, Eq)]
pub enum Input {
    /// The text of the model.
    ModelText,
    /// The text of the proof that is checked.
    ProofText,
}

/// What a run answers.
#[derive(Clone, Copy, Debug, Drop, PartialEq, Eq)]
pub enum Status {
    /// A best point was found and said.
    Optimal,
    /// The model has no point.
    Infeasible,
    /// The proof is accepted: what it claims is true of the model.
    Accepted,
    /// As many nodes were worked as the budget has, and some node is open.
    Spent,
    /// The words are no command.
    Words,
    /// The text has this fault.
    Text(TextFault),
    /// The input has more bytes than it may have.
    TooLong(Input),
    /// This part of the model is too large to be worked with in 128 bits.
    Large(Part),
    /// The desk failed in a take of an input.
    ReadFault,
    /// The desk failed in a say or a put.
    WriteFault,
    /// No memory was left.
    NoMemory,
    /// The proof is refused, at this line.
    Rejected(Reject),
}

impl Status {
    ghost use Rattle.solve_cli.specs.Codes.{code_of};

    /// The number with which the program ends.
    pub fn code(&self) -> u8
        ensures { result ≡ code_of self.now }
    {
        match self {
            Status::Optimal | Status::Accepted => 0,
            Status::Infeasible => 1,
            Status::Spent => 2,
            Status::Words => 3,
            Status::Text(_) => 4,
            Status::TooLong(_) | Status::Large(_) => 5,
            Status::ReadFault => 6,
            Status::WriteFault => 7,
            Status::NoMemory => 8,
            Status::Rejected(_) => 9,
        }
    }
}
