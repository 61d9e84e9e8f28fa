//! The names of a section, in the order in which they were put in.
ghost use Rattle.std.specs.Prelude.{◌≡◌, ◌<◌, ℕ, Vec, false, [], ◌∷◌, ◌++◌, length, map, position, is_some, bytes_eq, IfSome, OnOk, OnErr};
ghost use Rattle.std.specs.List.{IsDistinct};
ghost use Rattle.std.specs.Map.Iter.{GivesInOrder};
ghost use Rattle.std.specs.declared.alloc.Global.{Global as global_allocator};
ghost use Rattle.mps_model.specs.FaultRules.{is_among};

use indexmap::IndexSet;
use indexmap::set::IntoIter;
use sequence::NoMemory;
use std::alloc::Global;
use std::marker::Model;

/// Names, no two of them the same, each with its place from 0. Contracts see the list of them.
#[derive(Drop)]
pub(crate) struct Names {
    alloc: Global,
    set: IndexSet<Vec<u8>>,
}

impl Model for Names {
    ghost use Rattle.std.specs.Prelude.{ℕ, List, map, bytes_eq};
    ghost use Rattle.std.specs.List.{IsDistinct};

    ghost Value = { List (List ℕ) };

    ghost view = { λ names. map (λ name. name.items) names.set.keys };

    ghost invariant = { λ names. IsDistinct (λ x y. bytes_eq x.items y.items) names.set.keys };
}

impl Names {
    pub(crate) fn new(alloc: Global) -> Names
        ensures { result ≡ [] }
    {
        Names {
            alloc,
            set: IndexSet::new(alloc),
        }
    }

    /// The place of a name, if it is there.
    pub(crate) fn find(&self, name: &[u8]) -> Option<usize>
        ensures place { result ≡ position (bytes_eq name.now) self.now }
        ensures found { is_some result ≡ is_among self.now name.now }
        ensures within { IfSome result (λ place. place < length self.now) }
        ensures distinct { IsDistinct bytes_eq self.now }
    {
        self.set.get_index_of(name)
    }

    /// Puts a new name at the end, for which it is copied.
    pub(crate) fn add(&mut self, name: &[u8]) -> Result<(), NoMemory>
        requires { is_among self.old name.now ≡ false }
        ensures ok { OnOk result (self.new ≡ self.old ++ name.now ∷ []) }
        ensures err { OnErr result (self.new ≡ self.old) }
    {
        let name = Vec::from_slice(self.alloc, name)?;
        self.set.insert(name)?;
        Ok(())
    }

    pub(crate) fn len(&self) -> usize
        ensures len { result ≡ length self.now }
        ensures distinct { IsDistinct bytes_eq self.now }
    {
        self.set.len()
    }

    /// Hands out the names in order.
    pub(crate) fn into_items(self) -> IntoIter<Vec<u8>>
        ensures items { map (λ name. name.items) result ≡ self }
        ensures runs { GivesInOrder (Vec ℕ global_allocator) }
    {
        let Names { alloc: _, set } = self;
        set.into_iter()
    }
}
