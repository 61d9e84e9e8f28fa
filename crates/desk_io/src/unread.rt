//! Bytes that are taken from the front.
ghost use Rattle.std.specs.Prelude.{◌≡◌, take, drop, min, length, IfOk};

use std::alloc::{AllocError, Global};
use std::marker::Model;

/// Bytes of which the first were taken. A contract sees those that are left.
#[derive(Drop)]
pub(crate) struct Unread {
    bytes: Vec<u8>,
    taken: usize,
}

impl Model for Unread {
    ghost use Rattle.std.specs.Prelude.{List, ℕ, drop, length, ◌≤◌};

    ghost Value = { List ℕ };

    ghost view = { λ u. drop u.taken u.bytes.items };

    ghost invariant = { λ u. u.taken ≤ length u.bytes.items };
}

impl Unread {
    pub(crate) fn of(alloc: Global, bytes: &[u8]) -> Result<Unread, AllocError>
        ensures { IfOk result (λ u. u ≡ bytes.now) }
    {
        Ok(Unread {
            bytes: Vec::from_slice(alloc, bytes)?,
            taken: 0,
        })
    }

    /// Takes as many bytes as are left and as the buffer has room for.
    pub(crate) fn take_front(&mut self, buf: &mut [u8]) -> usize
        ensures count { result ≡ min (length buf.new) (length self.old) }
        ensures front { take result buf.new ≡ take result self.old }
        ensures rest { self.new ≡ drop result self.old }
    {
        let left = &self.bytes[self.taken..];
        let n = buf.len().min(left.len());
        buf[..n].copy_from_slice(&left[..n]);
        self.taken += n;
        n
    }
}
