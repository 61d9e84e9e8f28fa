//! The desk of a program: files by name, and the standard output.
ghost use Rattle.std.specs.Prelude.{◌≡◌, List, ◌≤◌, ◌-◌, ◌^◌, ℕ, None};

use crate::channel::Channel;
use crate::fault::Faults;
use crate::transfer::write_through;
use crate::{Call, Desk, DeskStop, Failed};
use std::io;
use std::rt::Files;

/// A desk over real files and the standard output.
///
/// It tells no content. Each call that the system refuses, in whole or in part, is a fault: an opening for whatever
/// reason, a read, a write, and a write that takes nothing of a piece.
///
/// One input and one output are open at a time. An output is created, or emptied, at its first put. An input or output
/// that comes again after another one goes on where it stopped. The desk remembers the names of eight inputs and of
/// eight outputs for that, in fields of fixed size; a call that would need to remember a ninth is a fault.
#[derive(Drop)]
pub struct RealDesk<R: Files + Print + Drop> {
    rt: R,
    inputs: Channel<R::File>,
    outputs: Channel<R::File>,
    faults: Faults,
    ghost limited: { faults.count ≤ 2 ^ 64 - 1 },
}

impl<R: Files + Print + Drop> RealDesk<R> {
    /// A desk that has nothing open and has had no fault.
    pub fn new(rt: R) -> RealDesk<R>
        ensures left { (name : List ℕ) → ⟦<RealDesk<R> as Desk>⟧.left result name ≡ None }
        ensures written { (name : List ℕ) → ⟦<RealDesk<R> as Desk>⟧.written result name ≡ None }
        ensures said { ⟦<RealDesk<R> as Desk>⟧.said result ≡ None }
        ensures faults { ⟦<RealDesk<R> as Desk>⟧.faults result ≡ 0 }
        ensures fault_at { ⟦<RealDesk<R> as Desk>⟧.fault_at result ≡ None }
    {
        RealDesk {
            rt,
            inputs: Channel::new(),
            outputs: Channel::new(),
            faults: Faults::new(),
        }
    }
}

impl<R: Files + Print + Drop> Desk for RealDesk<R> {
    ghost left = { λ desk name. None };

    ghost written = { λ desk name. None };

    ghost said = { λ desk. None };

    ghost faults = { λ desk. desk.faults.count };

    ghost fault_at = { λ desk. desk.faults.last };

    fn take(&mut self, name: &str, buf: &mut [u8]) -> Result<usize, Failed> {
        match self.inputs.read(&self.rt, name, buf) {
            Ok(n) => Ok(n),
            Err(_) => {
                self.faults.record(Call::Take, name);
                Err(Failed)
            }
        }
    }

    fn put(&mut self, name: &str, bytes: &[u8]) -> Result<(), DeskStop> {
        match self.outputs.write(&self.rt, name, bytes) {
            Ok(()) => Ok(()),
            Err(_) => {
                self.faults.record(Call::Put, name);
                Err(DeskStop::Failed)
            }
        }
    }

    /// The standard output is flushed, so what was said stands at `Ok`.
    fn say(&mut self, bytes: &[u8]) -> Result<(), DeskStop> {
        match write_through(&mut io::writer(&self.rt), bytes) {
            Ok(()) => Ok(()),
            Err(_) => {
                self.faults.record(Call::Say, "");
                Err(DeskStop::Failed)
            }
        }
    }
}
