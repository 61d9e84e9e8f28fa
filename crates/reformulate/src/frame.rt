//! Frames of equalities.
ghost use Rattle.std.specs.Prelude.{◌≡◌};
ghost use Rattle.reformulate.specs.Substitutions.{dimension_of, IsSubstitution};

use spaces::{Affine, Grid, Kernel, Work};
use std::marker::Model;

/// The integer solutions of equalities as x = x0 + K y, each for one whole y, and y = V (x - x0) (Aardal, Hurkens and
/// Lenstra 2000).
///
/// K has a line for each work column, and V a row for each coordinate of y.
#[derive(Debug, Drop)]
pub struct Frame {
    to_work: Affine<Kernel, Work>,
    back: Grid<Work, i128>,
}

impl Model for Frame {
    ghost use Rattle.reformulate.specs.Substitutions.{Substitution, substitution_code, IsSubstitution};

    ghost Value = { Substitution };

    ghost coded = { substitution_code };

    ghost view = { λ frame. record { to_work = frame.to_work; back = frame.back } };

    ghost invariant = { λ frame. IsSubstitution (record { to_work = frame.to_work; back = frame.back }) };
}

impl Frame {
    /// The frame of these maps. It takes no memory.
    pub(crate) fn of_maps(to_work: Affine<Kernel, Work>, back: Grid<Work, i128>) -> Frame
        requires { IsSubstitution (record { to_work = to_work; back = back }) }
        ensures { result ≡ record { to_work = to_work; back = back } }
    {
        Frame { to_work, back }
    }

    /// How many coordinates y has.
    pub fn dimension(&self) -> usize
        ensures value { result ≡ dimension_of self.now }
        ensures shaped { IsSubstitution self.now }
    {
        let _back = &self.back;
        self.to_work.lines().width()
    }

    /// The map from y to x0 + K y.
    pub fn to_work(&self) -> &Affine<Kernel, Work>
        ensures value { result.now ≡ self.now.to_work }
        ensures shaped { IsSubstitution self.now }
    {
        let _back = &self.back;
        &self.to_work
    }

    /// The rows of V.
    pub fn back(&self) -> &Grid<Work, i128>
        ensures value { result.now ≡ self.now.back }
        ensures shaped { IsSubstitution self.now }
    {
        let _to_work = &self.to_work;
        &self.back
    }
}
