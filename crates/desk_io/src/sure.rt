//! A desk in memory that never fails.
ghost use Rattle.std.specs.Prelude.{◌≡◌, ◌≤◌, ℕ, List, [], ◌++◌, Option, Some, length, drop, min, IfOk, OnOk, OnErr, IsOk, IsErr, IsErrOf, IsSome, IsTrue, ◌↔◌};
ghost use Rattle.std.specs.Option.{option_map, ForSome};
ghost use Rattle.desk_io.specs.declared.desk.Call.TheVariants.{Take, Put, Say};
ghost use Rattle.desk_io.specs.Memory.{failing_calls};
ghost use Rattle.desk_io.specs.Desk.{Fault, fault, TakesFrom, appended, AppendsSome, SameButAt, Same, HasCause, IsKept};

use crate::{Desk, DeskStop, Failed, MemDesk};
use sequence::NoMemory;
use std::alloc::Global;

/// A desk whose inputs and outputs are in memory, and of which no call fails: a put or a say may want memory, and where a
/// name has no input a take tells its end.
#[derive(Drop)]
pub struct SureDesk {
    desk: MemDesk,
    ghost sure: { failing_calls desk ≡ [] },
}

impl SureDesk {
    ghost use Rattle.desk_io.specs.Sure.{input_of, output_of, report_of};

    /// A desk with empty inputs and outputs.
    pub fn new(alloc: Global) -> SureDesk
        ensures inputs { (name : List ℕ) → input_of result name ≡ [] }
        ensures outputs { (name : List ℕ) → output_of result name ≡ [] }
        ensures said { report_of result ≡ [] }
    {
        SureDesk {
            desk: MemDesk::new(alloc),
        }
    }

    /// Lays these bytes out as the input of that name, in the place of what is left of an earlier one.
    pub fn add_input(&mut self, name: &str, bytes: &[u8]) -> Result<(), NoMemory>
        ensures ok { OnOk result (input_of self.new name.now ≡ bytes.now) }
        ensures err { OnErr result (input_of self.new name.now ≡ input_of self.old name.now) }
        ensures other_inputs { SameButAt name.now (input_of self.old) (input_of self.new) }
        ensures outputs { Same (output_of self.old) (output_of self.new) }
        ensures said { report_of self.new ≡ report_of self.old }
    {
        self.desk.add_input(name, bytes)
    }

    /// What was put into the output of that name.
    pub fn written(&self, name: &str) -> &[u8]
        ensures { result.now ≡ output_of self.now name.now }
    {
        self.desk.written(name)
    }

    /// What was said.
    pub fn said(&self) -> &[u8]
        ensures { result.now ≡ report_of self.now }
    {
        self.desk.said()
    }

    /// How many calls failed: none.
    pub fn faults(&self) -> u64
        ensures { result ≡ 0 }
    {
        0
    }
}

impl Desk for SureDesk {
    ghost use Rattle.desk_io.specs.Sure.{input_of, output_of, report_of, told_input, told_output, told_report, no_faults, no_fault};

    ghost left = { told_input };

    ghost written = { told_output };

    ghost said = { told_report };

    ghost faults = { no_faults };

    ghost fault_at = { no_fault };

    /// Takes as many bytes as the buffer has room for, or all that are left.
    fn take(&mut self, name: &str, buf: &mut [u8]) -> Result<usize, Failed>
        requires { length name.now ≤ 255 }
        ensures sure { IsOk result }
        ensures count { IfOk result (λ n. n ≤ length buf.new) }
        ensures buffer { OnErr result (buf.new ≡ buf.old) }
        ensures full { IfOk result (λ n. n ≡ min (length buf.new) (length (input_of self.old name.now))) }
        ensures taken { IfOk result (λ n. ForSome (told_input self.old name.now) (TakesFrom buf.new n)) }
        ensures rest { IfOk result (λ n. told_input self.new name.now ≡ option_map (drop n) (told_input self.old name.now)) }
        ensures none_taken { OnErr result (told_input self.new name.now ≡ told_input self.old name.now) }
        ensures other_inputs { SameButAt name.now (told_input self.old) (told_input self.new) }
        ensures outputs { Same (told_output self.old) (told_output self.new) }
        ensures said { told_report self.new ≡ told_report self.old }
        ensures cause { HasCause (fault Take name.now) (IsErr result) (IsOk result)
            (no_faults self.old) (no_faults self.new) (no_fault self.old) (no_fault self.new) }
    {
        if !self.desk.has_input(name) {
            return Ok(0);
        }
        self.desk.take(name, buf)
    }

    fn put(&mut self, name: &str, bytes: &[u8]) -> Result<(), DeskStop>
        requires { length name.now ≤ 255 }
        ensures sure { IsKept result }
        ensures ok { OnOk result (told_output self.new name.now ≡ option_map (appended bytes.now) (told_output self.old name.now)) }
        ensures err { OnErr result (AppendsSome bytes.now (told_output self.old name.now) (told_output self.new name.now)) }
        ensures other_outputs { SameButAt name.now (told_output self.old) (told_output self.new) }
        ensures inputs { Same (told_input self.old) (told_input self.new) }
        ensures said { told_report self.new ≡ told_report self.old }
        ensures cause { HasCause (fault Put name.now) (IsErrOf result DeskStop.Failed) (IsKept result)
            (no_faults self.old) (no_faults self.new) (no_fault self.old) (no_fault self.new) }
    {
        self.desk.put(name, bytes)
    }

    fn say(&mut self, bytes: &[u8]) -> Result<(), DeskStop>
        ensures sure { IsKept result }
        ensures ok { OnOk result (told_report self.new ≡ option_map (appended bytes.now) (told_report self.old)) }
        ensures err { OnErr result (AppendsSome bytes.now (told_report self.old) (told_report self.new)) }
        ensures inputs { Same (told_input self.old) (told_input self.new) }
        ensures outputs { Same (told_output self.old) (told_output self.new) }
        ensures cause { HasCause (fault Say []) (IsErrOf result DeskStop.Failed) (IsKept result)
            (no_faults self.old) (no_faults self.new) (no_fault self.old) (no_fault self.new) }
    {
        self.desk.say(bytes)
    }
}
