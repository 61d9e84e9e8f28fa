//! Down to a slice of a split, and up again, on one path. No form is copied.
ghost use Rattle.std.specs.Prelude.{◌≡◌, ℤ, List, [], OnOk, OnErr};
ghost use Rattle.farkas_rows.specs.declared.path.Slice.{Slice};
ghost use Rattle.proof_tree.specs.Trees.{on_slice};

use farkas_rows::{Path, Slice};
use sequence::NoMemory;
use spaces::{Form, Original};
use std::alloc::Global;
use std::mem;

/// Goes down to the slice on which the form has the value `beta`. The form moves to the path. Where no memory is to be had,
/// it is dropped.
pub(crate) fn go_down(
    alloc: Global,
    path: &mut Path,
    form: &mut Form<Original>,
    beta: i128,
) -> Result<(), NoMemory>
    ensures path { OnOk result (path.new ≡ on_slice path.old form.old beta) }
    ensures err { OnErr result (path.new ≡ path.old) }
    ensures form { form.new ≡ [] }
{
    let form = mem::replace(form, Form::of(Vec::new(alloc)));
    path.push(Slice { form, beta })
}

/// Goes up from a slice. Its form moves back.
pub(crate) fn go_up(path: &mut Path, form: &mut Form<Original>)
    ensures path { (above : List Slice) (moved : List ℤ) (beta : ℤ) → path.old ≡ on_slice above moved beta → path.new ≡ above }
    ensures form { (above : List Slice) (moved : List ℤ) (beta : ℤ) → path.old ≡ on_slice above moved beta → form.new ≡ moved }
{
    if let Some(slice) = path.pop() {
        *form = slice.form;
    }
}
