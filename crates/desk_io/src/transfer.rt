//! Bytes that come from a reader, or go to a writer.
ghost use Rattle.std.specs.Prelude.{◌≤◌, ◌≡◌, length, take, IfOk, OnOk, OnErr};
ghost use Rattle.std.specs.Io.KnownBytes.{Appends, ReadConsumes};
ghost use Rattle.desk_io.specs.Writing.{AppendsFront};

use crate::Failed;
use std::io::{Read, Write};

/// How many bytes are read at once.
const PIECE_BYTES: usize = 4_096;

/// Reads once into the front of the buffer, which stays as it is where the read fails.
pub(crate) fn read_piece<F: Read>(file: &mut F, buf: &mut [u8]) -> Result<usize, Failed>
    ensures count { IfOk result (λ n. n ≤ length buf.new) }
    ensures buffer { OnErr result (buf.new ≡ buf.old) }
    ensures bytes { ReadConsumes (F.remaining file.old) (F.remaining file.new) result buf.new }
{
    let mut piece = [0u8; PIECE_BYTES];
    let room = buf.len().min(PIECE_BYTES);
    let Ok(n) = file.read(&mut piece[..room]) else {
        return Err(Failed);
    };
    buf[..n].copy_from_slice(&piece[..n]);
    Ok(n)
}

/// Writes bytes from the front on, and answers how many were written before the first error.
/// A write that takes nothing is one.
pub(crate) fn write_front<W: Write>(out: &mut W, bytes: &[u8]) -> usize
    ensures count { result ≤ length bytes.now }
    ensures bytes { Appends (W.contents out.old) (W.contents out.new) (take result bytes.now) }
{
    let mut done = 0;
    while done < bytes.len() {
        match out.write(&bytes[done..]) {
            Ok(0) | Err(_) => return done,
            Ok(n) => done += n,
        }
    }
    done
}

/// Writes all of the bytes, and flushes them: at `Ok` the writer got all of them, at `Err` some first ones.
pub(crate) fn write_through<W: Write>(out: &mut W, bytes: &[u8]) -> Result<(), Failed>
    ensures ok { OnOk result (Appends (W.contents out.old) (W.contents out.new) bytes.now) }
    ensures err { OnErr result (AppendsFront (W.contents out.old) (W.contents out.new) bytes.now) }
{
    if write_front(out, bytes) < bytes.len() || out.flush().is_err() {
        return Err(Failed);
    }
    Ok(())
}
