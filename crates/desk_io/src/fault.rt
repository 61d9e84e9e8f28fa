//! The count of a desk's faults and the last of them.
ghost use Rattle.std.specs.Prelude.{◌≡◌, ◌≤◌, ◌-◌, ◌^◌, length, None, Some};
ghost use Rattle.desk_io.specs.Counts.{one_more};
ghost use Rattle.desk_io.specs.Desk.{fault};

use crate::Call;
use crate::short_name::{ShortName, short_name};
use std::marker::Model;

/// A call that failed.
#[derive(Drop)]
struct Place {
    call: Call,
    name: ShortName,
}

impl Model for Place {
    ghost use Rattle.desk_io.specs.Desk.{Fault, fault};
    ghost use Rattle.desk_io.specs.Names.{text_of};

    ghost Value = { Fault };

    ghost view = { λ p. fault p.call (text_of p.name) };
}

/// How often a desk failed, and at which call last.
#[derive(Drop)]
pub(crate) struct Faults {
    count: u64,
    last: Option<Place>,
}

impl Model for Faults {
    ghost use Rattle.desk_io.specs.Counts.{FaultLog};

    ghost Value = { FaultLog };

    ghost view = { λ f. record { count = f.count; last = f.last } };
}

impl Faults {
    pub(crate) fn new() -> Faults
        ensures count { result.count ≡ 0 }
        ensures last { result.last ≡ None }
    {
        Faults {
            count: 0,
            last: None,
        }
    }

    pub(crate) fn count(&self) -> u64
        ensures { result ≡ self.now.count }
    {
        self.count
    }

    /// Counts one fault more, at this call. At 2^64-1 the count stands still.
    pub(crate) fn record(&mut self, call: Call, name: &str)
        requires { length name.now ≤ 255 }
        ensures count { self.new.count ≡ one_more self.old.count }
        ensures last { self.new.last ≡ Some (fault call name.now) }
    {
        self.count = self.count.saturating_add(1);
        self.last = Some(Place {
            call,
            name: short_name(name),
        });
    }
}
