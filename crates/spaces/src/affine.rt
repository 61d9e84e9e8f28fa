//! Affine maps from one space to another.
ghost use Rattle.std.specs.Prelude.{◌≡◌, ℕ, ◌*◌, ◌+ℤ◌, ◌≤◌, ◌^◌, ℤ, List, length, IfErr, IfOk, OnOk};
ghost use Rattle.exact_math.specs.Ring.{integers};
ghost use Rattle.exact_vectors.specs.Vectors.{dot};
ghost use Rattle.spaces.specs.Maps.{image, pulled_constant, pulled_form, CompositionStays, ImageStays, IsComposed, PullBackStays};
ghost use Rattle.spaces.specs.Stops.{StopsUnless};

use crate::form::Form;
use crate::grid::Grid;
use crate::map_stop::MapStop;
use crate::products::{append_product, image_items, product_items};
use crate::space::Space;
use crate::vect::Vect;
use std::alloc::Global;
use std::marker::Model;

/// The map from v to `base` plus `lines` times v. There is one line for each item of the base, as long as v.
#[derive(Debug, Drop)]
pub struct Affine<S: Space, T: Space> {
    base: Vect<T>,
    lines: Grid<S, i128>,
}

impl<S: Space, T: Space> Model for Affine<S, T> {
    ghost use Rattle.std.specs.Prelude.{◌≡◌, length};
    ghost use Rattle.spaces.specs.Maps.{AffineMap, affine_code};

    ghost Value = { AffineMap };

    ghost coded = { affine_code };

    ghost view = { λ map. record { base = map.base; lines = map.lines } };

    ghost invariant = { λ map. length map.base ≡ map.lines.rows };
}

/// A form that was pulled back along a map: its value at the image of v is `form` at v plus `constant`.
#[derive(Debug, Drop)]
pub struct Pulled<S: Space> {
    pub form: Form<S>,
    pub constant: i128,
}

impl<S: Space, T: Space> Affine<S, T> {
    /// The map with this base and these lines. It takes no memory.
    pub fn of(base: Vect<T>, lines: Grid<S, i128>) -> Affine<S, T>
        requires { length base ≡ lines.rows }
        ensures { result ≡ record { base = base; lines = lines } }
    {
        Affine { base, lines }
    }

    /// The image of the zero vector.
    pub fn base(&self) -> &Vect<T>
        ensures value { result.now ≡ self.now.base }
        ensures as_many { length self.now.base ≡ self.now.lines.rows }
    {
        &self.base
    }

    /// The matrix, a line for each item of the base.
    pub fn lines(&self) -> &Grid<S, i128>
        ensures value { result.now ≡ self.now.lines }
        ensures as_many { length self.now.base ≡ self.now.lines.rows }
    {
        &self.lines
    }

    /// The image of `v`.
    ///
    /// `Wide` comes exactly where a product leaves `i128`, or a sum of an item of the base and products in index order.
    pub fn apply(&self, alloc: Global, v: &Vect<S>) -> Result<Vect<T>, MapStop>
        requires { length v.now ≡ self.now.lines.width }
        ensures ok { IfOk result (λ w. w ≡ image self.now v.now) }
        ensures in_range { OnOk result (ImageStays self.now v.now) }
        ensures stop { IfErr result (StopsUnless (ImageStays self.now v.now)) }
    {
        let items = image_items(alloc, self.base.items(), &self.lines, v.items())?;
        Ok(Vect::of(items))
    }

    /// First this map and then `next`, as one map.
    ///
    /// `Wide` comes exactly where a product leaves `i128`, or a sum of products in index order, which for the base begins
    /// with the item of the base of `next`.
    pub fn compose<U: Space>(
        &self,
        alloc: Global,
        next: &Affine<T, U>,
    ) -> Result<Affine<S, U>, MapStop>
        requires same_space { next.now.lines.width ≡ length self.now.base }
        requires room { next.now.lines.rows * self.now.lines.width ≤ 2 ^ 31 }
        ensures ok { IfOk result (IsComposed self.now next.now) }
        ensures same { IfOk result (λ map. (v : List ℤ) → length v ≡ self.now.lines.width → image map v ≡ image next.now (image self.now v)) }
        ensures in_range { OnOk result (CompositionStays self.now next.now) }
        ensures stop { IfErr result (StopsUnless (CompositionStays self.now next.now)) }
    {
        let base = next.apply(alloc, &self.base)?;
        let items = product_items(alloc, &next.lines, &self.lines)?;
        let lines = Grid::of_items(items, next.lines.rows(), self.lines.width());
        Ok(Affine { base, lines })
    }

    /// The form on this map's first space that is `form` at the image.
    ///
    /// `Wide` comes exactly where a product leaves `i128`, or a sum of products in index order.
    pub fn pull_back(&self, alloc: Global, form: &Form<T>) -> Result<Pulled<S>, MapStop>
        requires { length form.now ≡ length self.now.base }
        ensures form { IfOk result (λ pulled. pulled.form ≡ pulled_form self.now form.now) }
        ensures constant { IfOk result (λ pulled. pulled.constant ≡ pulled_constant self.now form.now) }
        ensures same { OnOk result ((v : List ℤ) → length v ≡ self.now.lines.width → dot integers form.now (image self.now v) ≡ dot integers (pulled_form self.now form.now) v +ℤ pulled_constant self.now form.now) }
        ensures in_range { OnOk result (PullBackStays self.now form.now) }
        ensures stop { IfErr result (StopsUnless (PullBackStays self.now form.now)) }
    {
        let Ok(constant) = form.at(&self.base) else {
            return Err(MapStop::Wide);
        };
        let mut items = Vec::with_capacity(alloc, self.lines.width())?;
        append_product(&mut items, form.items(), &self.lines)?;
        Ok(Pulled {
            form: Form::of(items),
            constant,
        })
    }
}
