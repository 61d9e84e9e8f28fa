//! The check of a point: whether it is one of the node, and better than the best one.
ghost use Rattle.std.specs.Prelude.{◌≡◌, ◌<ℤ◌, ◌↔◌, length, IfSome, IsTrue};
ghost use Rattle.exact_math.specs.Ring.{integers};
ghost use Rattle.exact_vectors.specs.Vectors.{dot};
ghost use Rattle.farkas_rows.specs.Refutes.{HasForms, IsOnPath};
ghost use Rattle.proof_tree.specs.Moves.{Improves};

use crate::task::Task;
use exact_vectors::dot_checked;
use farkas_rows::{Path, Slice};
use spaces::{Original, Vect};

/// Whether the values lie on the slice.
fn lies_on(slice: &Slice, x: &[i128]) -> bool
    requires { length slice.now.form ≡ length x.now }
    ensures { IsTrue result → dot integers slice.now.form x.now ≡ slice.now.beta }
{
    match dot_checked(slice.form.items(), x) {
        Some(value) => value == slice.beta,
        None => false,
    }
}

/// Whether the values lie on each slice.
fn is_on_path(path: &Path, x: &[i128]) -> bool
    requires { HasForms (length x.now) path.now }
    ensures { IsTrue result → IsOnPath path.now x.now }
{
    let slices = path.items();
    for slice in slices {
        if !lies_on(slice, x) {
            return false;
        }
    }
    true
}

/// Whether a value of the costs is below that of the best point, where one is known.
fn is_below(best: Option<i128>, value: i128) -> bool
    ensures { IsTrue result ↔ IfSome best (λ known. value <ℤ known) }
{
    match best {
        Some(known) => value < known,
        None => true,
    }
}

/// Whether the values are a point of the node that is better than the best one.
fn improves(task: Task<'_>, x: &[i128]) -> bool
    requires { HasForms (length task.rows.now.box) task.path.now }
    ensures { IsTrue result → Improves task.entry.rows.now task.entry.best task.entry.path.now x.now }
{
    x.len() == task.rows.columns()
        && task.rows.is_point(x)
        && is_on_path(task.path, x)
        && is_below(task.best, task.rows.cut_value(x))
}

/// The values as a point, where they are there and pass the check.
pub fn better(task: Task<'_>, values: Option<Vec<i128>>) -> Option<Vect<Original>>
    requires { HasForms (length task.rows.now.box) task.path.now }
    ensures { IfSome result (Improves task.entry.rows.now task.entry.best task.entry.path.now) }
{
    let values = values?;
    if improves(task, &values) {
        Some(Vect::of(values))
    } else {
        None
    }
}
