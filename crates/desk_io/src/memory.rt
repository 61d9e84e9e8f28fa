//! A desk in memory, which fails only where it was told to.
ghost use Rattle.std.specs.Prelude.{◌≡◌, ◌≤◌, ◌⊎◌, ◌↔◌, ℕ, List, [], ◌∷◌, ◌++◌, ◌-◌, ◌^◌, Option, Some, None, length, drop, min, IfOk, OnOk, OnErr, IsOk, IsErr, IsErrOf, IsNone, IsTrue, Contains, IfSome, IfNone, is_some, take};
ghost use Rattle.std.specs.Option.{option_map, ForSome};
ghost use Rattle.desk_io.specs.declared.desk.Call.TheVariants.{Take, Put, Say};
ghost use Rattle.desk_io.specs.Counts.{one_more};
ghost use Rattle.desk_io.specs.Desk.{Fault, fault, TakesFrom, appended, AppendsSome, SameButAt, Same, HasCause, IsKept};

use crate::fault::Faults;
use crate::unread::Unread;
use crate::{Call, Desk, DeskStop, Failed};
use sequence::NoMemory;
use std::alloc::{AllocError, Global};
use std::collections::BTreeMap;

/// A desk whose inputs and outputs are in memory.
///
/// It tells all its bytes. A take of a name without an input fails, and so does each call whose number was given to
/// `fail_call`; no other call does. A put or say that fails appends nothing.
#[derive(Drop)]
pub struct MemDesk {
    alloc: Global,
    inputs: BTreeMap<String, Unread>,
    outputs: BTreeMap<String, Vec<u8>>,
    said: Vec<u8>,
    calls: u64,
    failing: Vec<u64>,
    faults: Faults,
    ghost limited: { faults.count ≤ 2 ^ 64 - 1 },
}

impl MemDesk {
    ghost use Rattle.desk_io.specs.Memory.{input_of, output_of, report_of, calls_made, failing_calls, FailsNext, fault_count, last_fault, SameFaults, SameOutputs};

    /// A desk without inputs, with empty outputs, of which no call is to fail.
    pub fn new(alloc: Global) -> MemDesk
        ensures inputs { (name : List ℕ) → input_of result name ≡ None }
        ensures outputs { (name : List ℕ) → output_of result name ≡ [] }
        ensures said { report_of result ≡ [] }
        ensures calls { calls_made result ≡ 0 }
        ensures failing { failing_calls result ≡ [] }
        ensures faults { fault_count result ≡ 0 }
        ensures fault_at { last_fault result ≡ None }
    {
        MemDesk {
            alloc,
            inputs: BTreeMap::new(alloc),
            outputs: BTreeMap::new(alloc),
            said: Vec::new(alloc),
            calls: 0,
            failing: Vec::new(alloc),
            faults: Faults::new(),
        }
    }

    /// Lays these bytes out as the input of that name, in the place of what is left of an earlier one.
    pub fn add_input(&mut self, name: &str, bytes: &[u8]) -> Result<(), NoMemory>
        ensures ok { OnOk result (input_of self.new name.now ≡ Some bytes.now) }
        ensures err { OnErr result (input_of self.new name.now ≡ input_of self.old name.now) }
        ensures other_inputs { SameButAt name.now (input_of self.old) (input_of self.new) }
        ensures outputs { SameOutputs self.old self.new }
        ensures faults { SameFaults self.old self.new }
        ensures calls { calls_made self.new ≡ calls_made self.old }
        ensures failing { failing_calls self.new ≡ failing_calls self.old }
    {
        let unread = Unread::of(self.alloc, bytes)?;
        let key = String::from_str(self.alloc, name)?;
        self.inputs.insert(key, unread)?;
        Ok(())
    }

    /// Lets the call of this number fail. Takes, puts and says are counted together, from 1.
    pub fn fail_call(&mut self, number: u64) -> Result<(), NoMemory>
        ensures ok { OnOk result (failing_calls self.new ≡ failing_calls self.old ++ number ∷ []) }
        ensures err { OnErr result (failing_calls self.new ≡ failing_calls self.old) }
        ensures inputs { Same (input_of self.old) (input_of self.new) }
        ensures outputs { SameOutputs self.old self.new }
        ensures faults { SameFaults self.old self.new }
        ensures calls { calls_made self.new ≡ calls_made self.old }
    {
        self.failing.push(number)?;
        Ok(())
    }

    /// Whether there is an input of that name.
    pub fn has_input(&self, name: &str) -> bool
        ensures { result ≡ is_some (input_of self.now name.now) }
    {
        self.inputs.contains_key(name)
    }

    /// What was put into the output of that name.
    pub fn written(&self, name: &str) -> &[u8]
        ensures { result.now ≡ output_of self.now name.now }
    {
        match self.outputs.get(name) {
            Some(bytes) => bytes.as_slice(),
            None => &[],
        }
    }

    /// What was said.
    pub fn said(&self) -> &[u8]
        ensures { result.now ≡ report_of self.now }
    {
        self.said.as_slice()
    }

    /// How many calls failed. The count stays at 2^64-1 once it is there.
    pub fn faults(&self) -> u64
        ensures { result ≡ fault_count self.now }
    {
        self.faults.count()
    }

    // Counts the call that begins, and tells whether it is to fail.
    fn begin_call(&mut self) -> bool
        ensures fails { IsTrue result ↔ FailsNext self.old }
        ensures calls { calls_made self.new ≡ one_more (calls_made self.old) }
        ensures failing { failing_calls self.new ≡ failing_calls self.old }
        ensures inputs { self.new.inputs ≡ self.old.inputs }
        ensures outputs { self.new.outputs ≡ self.old.outputs }
        ensures said { self.new.said ≡ self.old.said }
        ensures faults { self.new.faults ≡ self.old.faults }
    {
        self.calls = self.calls.saturating_add(1);
        self.is_to_fail(self.calls)
    }

    fn is_to_fail(&self, number: u64) -> bool
        ensures { IsTrue result ↔ Contains (failing_calls self.now) number }
    {
        self.failing.contains(&number)
    }

    // Takes what the buffer has room for, where there is an input of that name.
    fn take_left(&mut self, name: &str, buf: &mut [u8]) -> Option<usize>
        ensures missing { is_some result ≡ is_some (input_of self.old name.now) }
        ensures buffer { IfNone result (buf.new ≡ buf.old) }
        ensures full { IfSome result (λ n. ForSome (input_of self.old name.now) (λ left. n ≡ min (length buf.new) (length left))) }
        ensures taken { IfSome result (λ n. ForSome (input_of self.old name.now) (λ left. take n buf.new ≡ take n left)) }
        ensures rest { IfSome result (λ n. input_of self.new name.now ≡ option_map (drop n) (input_of self.old name.now)) }
        ensures none_taken { IfNone result (input_of self.new name.now ≡ input_of self.old name.now) }
        ensures other_inputs { SameButAt name.now (input_of self.old) (input_of self.new) }
        ensures outputs { self.new.outputs ≡ self.old.outputs }
        ensures said { self.new.said ≡ self.old.said }
        ensures calls { calls_made self.new ≡ calls_made self.old }
        ensures failing { failing_calls self.new ≡ failing_calls self.old }
        ensures faults { self.new.faults ≡ self.old.faults }
    {
        let unread = self.inputs.get_mut(name)?;
        Some(unread.take_front(buf))
    }

    fn append(&mut self, name: &str, bytes: &[u8]) -> Result<(), AllocError>
        ensures ok { OnOk result (output_of self.new name.now ≡ output_of self.old name.now ++ bytes.now) }
        ensures err { OnErr result (output_of self.new name.now ≡ output_of self.old name.now) }
        ensures other_outputs { SameButAt name.now (output_of self.old) (output_of self.new) }
        ensures inputs { self.new.inputs ≡ self.old.inputs }
        ensures said { self.new.said ≡ self.old.said }
        ensures calls { calls_made self.new ≡ calls_made self.old }
        ensures failing { failing_calls self.new ≡ failing_calls self.old }
        ensures faults { self.new.faults ≡ self.old.faults }
    {
        match self.outputs.get_mut(name) {
            Some(before) => before.extend_from_slice(bytes)?,
            None => {
                let key = String::from_str(self.alloc, name)?;
                self.outputs
                    .insert(key, Vec::from_slice(self.alloc, bytes)?)?;
            }
        }
        Ok(())
    }
}

impl Desk for MemDesk {
    ghost use Rattle.desk_io.specs.Memory.{input_of, written_to, output_of, told_report, report_of, calls_made, failing_calls, FailsNext, fault_count, last_fault};

    ghost left = { input_of };

    ghost written = { written_to };

    ghost said = { told_report };

    ghost faults = { fault_count };

    ghost fault_at = { last_fault };

    /// Takes as many bytes as the buffer has room for, or all that are left.
    fn take(&mut self, name: &str, buf: &mut [u8]) -> Result<usize, Failed>
        requires { length name.now ≤ 255 }
        ensures failed { IsErr result ↔ (FailsNext self.old ⊎ IsNone (input_of self.old name.now)) }
        ensures count { IfOk result (λ n. n ≤ length buf.new) }
        ensures buffer { OnErr result (buf.new ≡ buf.old) }
        ensures full { IfOk result (λ n. ForSome (input_of self.old name.now) (λ left. n ≡ min (length buf.new) (length left))) }
        ensures taken { IfOk result (λ n. ForSome (input_of self.old name.now) (TakesFrom buf.new n)) }
        ensures rest { IfOk result (λ n. input_of self.new name.now ≡ option_map (drop n) (input_of self.old name.now)) }
        ensures none_taken { OnErr result (input_of self.new name.now ≡ input_of self.old name.now) }
        ensures other_inputs { SameButAt name.now (input_of self.old) (input_of self.new) }
        ensures outputs { Same (written_to self.old) (written_to self.new) }
        ensures said { told_report self.new ≡ told_report self.old }
        ensures calls { calls_made self.new ≡ one_more (calls_made self.old) }
        ensures failing { failing_calls self.new ≡ failing_calls self.old }
        ensures counted { OnErr result (fault_count self.new ≡ one_more (fault_count self.old)) }
        ensures cause { HasCause (fault Take name.now) (IsErr result) (IsOk result)
            (fault_count self.old) (fault_count self.new) (last_fault self.old) (last_fault self.new) }
    {
        if self.begin_call() {
            self.faults.record(Call::Take, name);
            return Err(Failed);
        }
        match self.take_left(name, buf) {
            Some(n) => Ok(n),
            None => {
                self.faults.record(Call::Take, name);
                Err(Failed)
            }
        }
    }

    fn put(&mut self, name: &str, bytes: &[u8]) -> Result<(), DeskStop>
        requires { length name.now ≤ 255 }
        ensures failed { IsErrOf result DeskStop.Failed ↔ FailsNext self.old }
        ensures ok { OnOk result (written_to self.new name.now ≡ option_map (appended bytes.now) (written_to self.old name.now)) }
        ensures nothing { OnErr result (written_to self.new name.now ≡ written_to self.old name.now) }
        ensures err { OnErr result (AppendsSome bytes.now (written_to self.old name.now) (written_to self.new name.now)) }
        ensures other_outputs { SameButAt name.now (written_to self.old) (written_to self.new) }
        ensures inputs { Same (input_of self.old) (input_of self.new) }
        ensures said { told_report self.new ≡ told_report self.old }
        ensures calls { calls_made self.new ≡ one_more (calls_made self.old) }
        ensures failing { failing_calls self.new ≡ failing_calls self.old }
        ensures counted { IsErrOf result DeskStop.Failed → fault_count self.new ≡ one_more (fault_count self.old) }
        ensures cause { HasCause (fault Put name.now) (IsErrOf result DeskStop.Failed) (IsKept result)
            (fault_count self.old) (fault_count self.new) (last_fault self.old) (last_fault self.new) }
    {
        if self.begin_call() {
            self.faults.record(Call::Put, name);
            return Err(DeskStop::Failed);
        }
        self.append(name, bytes)?;
        Ok(())
    }

    fn say(&mut self, bytes: &[u8]) -> Result<(), DeskStop>
        ensures failed { IsErrOf result DeskStop.Failed ↔ FailsNext self.old }
        ensures ok { OnOk result (told_report self.new ≡ option_map (appended bytes.now) (told_report self.old)) }
        ensures nothing { OnErr result (told_report self.new ≡ told_report self.old) }
        ensures err { OnErr result (AppendsSome bytes.now (told_report self.old) (told_report self.new)) }
        ensures inputs { Same (input_of self.old) (input_of self.new) }
        ensures outputs { Same (written_to self.old) (written_to self.new) }
        ensures calls { calls_made self.new ≡ one_more (calls_made self.old) }
        ensures failing { failing_calls self.new ≡ failing_calls self.old }
        ensures counted { IsErrOf result DeskStop.Failed → fault_count self.new ≡ one_more (fault_count self.old) }
        ensures cause { HasCause (fault Say []) (IsErrOf result DeskStop.Failed) (IsKept result)
            (fault_count self.old) (fault_count self.new) (last_fault self.old) (last_fault self.new) }
    {
        if self.begin_call() {
            self.faults.record(Call::Say, "");
            return Err(DeskStop::Failed);
        }
        self.said.extend_from_slice(bytes)?;
        Ok(())
    }
}
