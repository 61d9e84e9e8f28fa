//! Vectors of a space.
ghost use Rattle.std.specs.Prelude.{◌≡◌};

use crate::space::Space;
use std::marker::{Model, PhantomData};

/// A vector of whole numbers with one item for each coordinate of the space `S`.
#[derive(Debug, Drop)]
pub struct Vect<S: Space> {
    items: Vec<i128>,
    space: PhantomData<S>,
}

impl<S: Space> Model for Vect<S> {
    ghost use Rattle.std.specs.Prelude.{ℤ, List};

    ghost Value = { List ℤ };

    ghost view = { λ v. v.items.items };
}

impl<S: Space> Vect<S> {
    /// The vector of these items. It takes no memory.
    pub fn of(items: Vec<i128>) -> Vect<S>
        ensures { result ≡ items.items }
    {
        Vect {
            items,
            space: PhantomData,
        }
    }

    /// Lends the items in order.
    pub fn items(&self) -> &[i128]
        ensures { result.now ≡ self.now }
    {
        self.items.as_slice()
    }
}
