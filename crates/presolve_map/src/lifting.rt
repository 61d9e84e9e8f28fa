//! Forms on the columns that are kept, as forms on all columns.
ghost use Rattle.std.specs.Prelude.{◌≡◌, ◌⊎◌, ℕ, ◌<◌, ℤ, List, length, IfOk, OnOk};
ghost use Rattle.exact_math.specs.Ring.{integers};
ghost use Rattle.exact_vectors.specs.Vectors.{dot};
ghost use Rattle.spaces.specs.Maps.{image};
ghost use Rattle.presolve_map.specs.Lifted.{MovesColumns, IsColumnLine, lifted_form};

use sequence::NoMemory;
use spaces::{Affine, Form, Original, Work};
use std::alloc::Global;

/// The form that at the image of each vector has the value that `form` has at the vector: each kept column has the item of
/// `form` at its place, and each removed column 0. The map is one that `presolve` gives; no item is computed.
pub fn lift_form(
    alloc: Global,
    map: &Affine<Work, Original>,
    form: &Form<Work>,
) -> Result<Form<Original>, NoMemory>
    requires columns { MovesColumns map.now }
    requires wide { length form.now ≡ map.now.lines.width }
    ensures value { IfOk result (λ lifted. lifted ≡ lifted_form map.now form.now) }
    ensures same { OnOk result ((v : List ℤ) → length v ≡ map.now.lines.width → dot integers (lifted_form map.now form.now) (image map.now v) ≡ dot integers form.now v) }
{
    let lines = map.lines();
    let mut items = Vec::new(alloc);
    for i in 0..lines.rows() {
        items.push(moved_item(lines.row(i), form.items()))?;
    }
    Ok(Form::of(items))
}

/// The item of a form at the place where a line has its 1; 0 where the line is all 0.
fn moved_item(line: &[i128], form: &[i128]) -> i128
    requires line { IsColumnLine (length form.now) line.now }
    requires same_length { length line.now ≡ length form.now }
    ensures { result ≡ dot integers line.now form.now }
{
    for k in 0..line.len() {
        if line[k] != 0 {
            return form[k];
        }
    }
    0
}
