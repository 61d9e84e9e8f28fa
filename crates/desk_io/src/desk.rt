//! What a desk is: named inputs, named outputs and a report, each of which may fail at any call.
ghost use Rattle.std.specs.Prelude.{◌≡◌, ◌≤◌, ℕ, List, [], Option, length, drop, IfOk, OnOk, OnErr, IsOk, IsErr, IsErrOf};
ghost use Rattle.std.specs.Option.{option_map, ForSome};
ghost use Rattle.desk_io.specs.declared.desk.Call.TheVariants.{Take, Put, Say};
ghost use Rattle.desk_io.specs.declared.desk.DeskStop.TheVariants.{NoMemory, Failed};
ghost use Rattle.desk_io.specs.Desk.{Fault, fault, TakesFrom, appended, AppendsSome, SameButAt, Same, HasCause, IsKept};

use sequence::NoMemory;
use std::alloc::{AllocError, AllocFailed};

/// The device behind the desk failed. The desk's count of faults tells the same.
#[derive(Clone, Copy, Debug, Drop, PartialEq, Eq)]
pub struct Failed;

/// Why a desk could not put or say all bytes.
#[derive(Clone, Copy, Debug, Drop, PartialEq, Eq)]
pub enum DeskStop {
    /// The device behind the desk failed.
    Failed,
    /// No memory was left to keep the bytes.
    NoMemory,
}

impl From<Failed> for DeskStop {
    ghost from_gives = { λ _ e. e ≡ Failed };

    fn from(_: Failed) -> Self {
        DeskStop::Failed
    }
}

impl From<AllocError> for DeskStop {
    ghost from_gives = { λ _ e. e ≡ NoMemory };

    fn from(_: AllocError) -> Self {
        DeskStop::NoMemory
    }
}

impl<T: Drop> From<AllocFailed<T>> for DeskStop {
    ghost from_gives = { λ _ e. e ≡ NoMemory };

    fn from(_: AllocFailed<T>) -> Self {
        DeskStop::NoMemory
    }
}

impl From<NoMemory> for DeskStop {
    ghost use Rattle.desk_io.specs.declared.desk.DeskStop.TheVariants.{NoMemory};

    ghost from_gives = { λ _ e. e ≡ NoMemory };

    fn from(_: NoMemory) -> Self {
        DeskStop::NoMemory
    }
}

/// Which call of a desk.
#[derive(Clone, Copy, Debug, Drop, PartialEq, Eq)]
pub enum Call {
    Take,
    Put,
    Say,
}

/// Named inputs and outputs, and a report, for one run.
///
/// A contract sees what is left of each input, what was put into each output and what was said,
/// each of them only where the desk tells it: a desk over real files tells nothing.
pub trait Desk {
    /// The bytes that are left in the input of that name.
    ghost left: { Self → List ℕ → Option (List ℕ) };

    /// The bytes that were put into the output of that name.
    ghost written: { Self → List ℕ → Option (List ℕ) };

    /// The bytes that were said.
    ghost said: { Self → Option (List ℕ) };

    /// How often a call failed. It stands still at 2^64-1.
    ghost faults: { Self → ℕ };

    /// The last call that failed.
    ghost fault_at: { Self → Option Fault };

    /// Takes the next bytes of an input into the front of the buffer, and answers how many.
    /// Where the buffer has room, 0 tells that the input has ended. After an error the buffer is as it was.
    fn take(&mut self, name: &str, buf: &mut [u8]) -> Result<usize, Failed>
        requires { length name.now ≤ 255 }
        ensures count { IfOk result (λ n. n ≤ length buf.new) }
        ensures buffer { OnErr result (buf.new ≡ buf.old) }
        ensures taken { IfOk result (λ n. ForSome (left self.old name.now) (TakesFrom buf.new n)) }
        ensures rest { IfOk result (λ n. left self.new name.now ≡ option_map (drop n) (left self.old name.now)) }
        ensures none_taken { OnErr result (left self.new name.now ≡ left self.old name.now) }
        ensures other_inputs { SameButAt name.now (left self.old) (left self.new) }
        ensures outputs { Same (written self.old) (written self.new) }
        ensures said { said self.new ≡ said self.old }
        ensures cause { HasCause (fault Take name.now) (IsErr result) (IsOk result)
            (faults self.old) (faults self.new) (fault_at self.old) (fault_at self.new) };

    /// Appends bytes to an output. Each output is empty at first. After an error a prefix of the bytes was appended.
    fn put(&mut self, name: &str, bytes: &[u8]) -> Result<(), DeskStop>
        requires { length name.now ≤ 255 }
        ensures ok { OnOk result (written self.new name.now ≡ option_map (appended bytes.now) (written self.old name.now)) }
        ensures err { OnErr result (AppendsSome bytes.now (written self.old name.now) (written self.new name.now)) }
        ensures other_outputs { SameButAt name.now (written self.old) (written self.new) }
        ensures inputs { Same (left self.old) (left self.new) }
        ensures said { said self.new ≡ said self.old }
        ensures cause { HasCause (fault Put name.now) (IsErrOf result DeskStop.Failed) (IsKept result)
            (faults self.old) (faults self.new) (fault_at self.old) (fault_at self.new) };

    /// Appends bytes to the report. After an error a prefix of them was appended.
    fn say(&mut self, bytes: &[u8]) -> Result<(), DeskStop>
        ensures ok { OnOk result (said self.new ≡ option_map (appended bytes.now) (said self.old)) }
        ensures err { OnErr result (AppendsSome bytes.now (said self.old) (said self.new)) }
        ensures inputs { Same (left self.old) (left self.new) }
        ensures outputs { Same (written self.old) (written self.new) }
        ensures cause { HasCause (fault Say []) (IsErrOf result DeskStop.Failed) (IsKept result)
            (faults self.old) (faults self.new) (fault_at self.old) (fault_at self.new) };
}
