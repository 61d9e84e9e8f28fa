//! Files that are read, or written, in turn: one is open, and each goes on where it stopped.
ghost use Rattle.std.specs.Prelude.{◌≡◌, ◌≤◌, ◌<◌, ◌+◌, ◌==◌, if◌then◌else◌, max, length, Some, None, IfOk, IfSome, OnOk, OnErr};

use crate::Failed;
use crate::short_name::{ShortName, short_name, spells};
use crate::transfer::{read_piece, write_front};
use std::fs::OpenOptions;
use std::io::{Read, Seek, SeekFrom, Write};
use std::rt::Files;

/// How many names a channel remembers.
pub(crate) const PLACES: usize = 8;

/// How far a file was read or written.
#[derive(Clone, Copy, Drop)]
struct Place {
    name: ShortName,
    at: u64,
}

/// The files of one direction.
#[derive(Drop)]
pub(crate) struct Channel<F> {
    open: Option<F>,
    current: usize,
    places: [Place; PLACES],
    used: usize,
    ghost in_range: { used ≤ 8 },
}

impl<F: Read + Write + Seek + Drop> Channel<F> {
    ghost use Rattle.desk_io.specs.Channels.{HoldsName, KeepsNames, GotAll};

    pub(crate) fn new() -> Channel<F> {
        let unused = Place {
            name: ShortName::EMPTY,
            at: 0,
        };
        Channel {
            open: None,
            current: 0,
            places: [unused; PLACES],
            used: 0,
        }
    }

    /// Reads the next bytes of that file, once.
    pub(crate) fn read<R: Files<File = F>>(
        &mut self,
        rt: &R,
        name: &str,
        buf: &mut [u8],
    ) -> Result<usize, Failed>
        requires { length name.now ≤ 255 }
        ensures count { IfOk result (λ n. n ≤ length buf.new) }
        ensures buffer { OnErr result (buf.new ≡ buf.old) }
        ensures place { OnOk result (HoldsName self.new.places self.new.current name.now) }
        ensures names { KeepsNames self.old.used self.old.places self.new.places }
    {
        let place = self.place_of(name)?;
        let mut file = match self.lift(place) {
            Some(file) => file,
            None => open_to_read(rt, name, self.places[place].at)?,
        };
        let n = read_piece(&mut file, buf)?;
        self.lay_down(place, file, n);
        Ok(n)
    }

    /// Writes these bytes behind those that were written before. What an earlier run left in the file is gone.
    pub(crate) fn write<R: Files<File = F>>(
        &mut self,
        rt: &R,
        name: &str,
        bytes: &[u8],
    ) -> Result<(), Failed>
        requires { length name.now ≤ 255 }
        ensures all { OnOk result (GotAll F.contents bytes.now self.new.open) }
        ensures place { OnOk result (HoldsName self.new.places self.new.current name.now) }
        ensures names { KeepsNames self.old.used self.old.places self.new.places }
    {
        let place = self.place_of(name)?;
        let started = place < self.used;
        let mut file = match self.lift(place) {
            Some(file) => file,
            None => open_to_write(rt, name, started, self.places[place].at)?,
        };
        let written = write_front(&mut file, bytes);
        self.lay_down(place, file, written);
        if written < bytes.len() {
            return Err(Failed);
        }
        Ok(())
    }

    // Where the name stands, if it is remembered.
    fn find(&self, name: &str) -> Option<usize>
        ensures { IfSome result (λ place. (place < self.now.used) × HoldsName self.now.places place name.now) }
    {
        for place in 0..self.used {
            if spells(&self.places[place].name, name) {
                return Some(place);
            }
        }
        None
    }

    // Where the name stands, or goes once its file is open, if there is room for one more.
    fn place_of(&mut self, name: &str) -> Result<usize, Failed>
        requires { length name.now ≤ 255 }
        ensures in_range { IfOk result (λ place. place < 8) }
        ensures holds { IfOk result (λ place. HoldsName self.new.places place name.now) }
        ensures names { KeepsNames self.old.used self.old.places self.new.places }
        ensures used { self.new.used ≡ self.old.used }
        ensures current { self.new.current ≡ self.old.current }
        ensures open { self.new.open ≡ self.old.open }
    {
        if let Some(place) = self.find(name) {
            return Ok(place);
        }
        if self.used == PLACES {
            return Err(Failed);
        }
        let place = self.used;
        self.places[place] = Place {
            name: short_name(name),
            at: 0,
        };
        Ok(place)
    }

    // The open file, if it is the one at that place. Another one is closed.
    fn lift(&mut self, place: usize) -> Option<F>
        ensures file { result ≡ (if self.old.current == place then self.old.open else None) }
        ensures open { self.new.open ≡ None }
        ensures places { self.new.places ≡ self.old.places }
        ensures used { self.new.used ≡ self.old.used }
    {
        let open = self.open.take();
        if self.current == place { open } else { None }
    }

    // Keeps the file open, so many bytes further on.
    fn lay_down(&mut self, place: usize, file: F, moved: usize)
        requires { place < 8 }
        ensures open { self.new.open ≡ Some file }
        ensures current { self.new.current ≡ place }
        ensures used { self.new.used ≡ max self.old.used (place + 1) }
        ensures names { KeepsNames 8 self.old.places self.new.places }
    {
        self.places[place].at = self.places[place].at.saturating_add(moved as u64);
        self.used = self.used.max(place + 1);
        self.current = place;
        self.open = Some(file);
    }
}

fn open_to_read<R: Files>(rt: &R, name: &str, at: u64) -> Result<R::File, Failed> {
    let Ok(file) = OpenOptions::new().read(true).open(rt, name) else {
        return Err(Failed);
    };
    move_to(file, at)
}

fn open_to_write<R: Files>(rt: &R, name: &str, started: bool, at: u64) -> Result<R::File, Failed> {
    let mut how = OpenOptions::new();
    how.write(true);
    if !started {
        how.create(true).truncate(true);
    }
    let Ok(file) = how.open(rt, name) else {
        return Err(Failed);
    };
    move_to(file, at)
}

// A file that is at its start already is not moved, so that a pipe can be read.
fn move_to<F: Seek + Drop>(mut file: F, at: u64) -> Result<F, Failed> {
    if at > 0 {
        if file.seek(SeekFrom::Start(at)).is_err() {
            return Err(Failed);
        }
    }
    Ok(file)
}
