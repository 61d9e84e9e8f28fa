//! Linear forms on a space.
ghost use Rattle.std.specs.Prelude.{◌≡◌, ◌<◌, pos, length, replicate, slice_set};
ghost use Rattle.std.specs.Result.{OkIff};
ghost use Rattle.exact_math.specs.Ring.{integers};
ghost use Rattle.exact_vectors.specs.Range.{StaysInRange};
ghost use Rattle.exact_vectors.specs.Vectors.{dot};

use crate::space::Space;
use crate::vect::Vect;
use exact_vectors::dot_checked;
use std::marker::{Model, PhantomData};

/// A number on the way to an entry is outside the range of `i128`.
#[derive(Clone, Copy, Debug, PartialEq, Eq)]
pub struct WideEntry;

/// A linear form with one whole factor for each coordinate of the space `S`.
#[derive(Debug, Drop)]
pub struct Form<S: Space> {
    items: Vec<i128>,
    space: PhantomData<S>,
}

impl<S: Space> Model for Form<S> {
    ghost use Rattle.std.specs.Prelude.{ℤ, List};

    ghost Value = { List ℤ };

    ghost view = { λ form. form.items.items };
}

impl<S: Space> Form<S> {
    /// The form with these factors. It takes no memory.
    pub fn of(items: Vec<i128>) -> Form<S>
        ensures { result ≡ items.items }
    {
        Form {
            items,
            space: PhantomData,
        }
    }

    /// Lends the factors in order.
    pub fn items(&self) -> &[i128]
        ensures { result.now ≡ self.now }
    {
        self.items.as_slice()
    }

    /// Makes each factor 0.
    pub fn clear(&mut self)
        ensures { self.new ≡ replicate (length self.old) (pos 0) }
    {
        self.items.as_mut_slice().fill(0);
    }

    /// Puts another factor in the place of that of this column.
    pub fn set(&mut self, column: usize, factor: i128)
        requires { column < length self.old }
        ensures { self.new ≡ slice_set self.old column factor }
    {
        self.items[column] = factor;
    }

    /// The form's value at `v`: the sum of each factor times the item in its place, taken in index order.
    ///
    /// `WideEntry` comes exactly where a product or a partial sum leaves `i128`.
    pub fn at(&self, v: &Vect<S>) -> Result<i128, WideEntry>
        requires { length self.now ≡ length v.now }
        ensures { OkIff result (StaysInRange (pos 0) self.now v.now) (dot integers self.now v.now) }
    {
        dot_checked(self.items(), v.items()).ok_or(WideEntry)
    }
}
