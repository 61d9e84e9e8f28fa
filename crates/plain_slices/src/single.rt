//! Forms that are one column's value, or minus it.
ghost use Rattle.std.specs.Prelude.{◌≡◌, ◌≢◌, ℕ, ◌<◌, ◌≤◌, pos, length, slice_index_or, IfNone, IfSome};
ghost use Rattle.plain_slices.specs.Shut.{IsColumn};
ghost use Rattle.plain_slices.specs.Nodes.{signed_unit};

/// One column's value, or minus it.
#[derive(Clone, Copy, Debug, Drop)]
pub(crate) struct Single {
    pub(crate) column: usize,
    pub(crate) is_negative: bool,
}

/// The column whose value, or minus it, the form is.
pub(crate) fn single_column(form: &[i128]) -> Option<Single>
    ensures some { IfSome result (λ single. (single.column < length form.now)
        × (form.now ≡ signed_unit single.is_negative (length form.now) single.column)) }
    ensures none { IfNone result ((column : ℕ) → column < length form.now → IsColumn (length form.now) column form.now → ⊥) }
{
    let column = nonzero_from(form, 0);
    if column == form.len() {
        return None;
    }
    let next = nonzero_from(form, column + 1);
    if next < form.len() {
        return None;
    }
    let factor = form[column];
    if factor == 1 {
        Some(Single {
            column,
            is_negative: false,
        })
    } else if factor == -1 {
        Some(Single {
            column,
            is_negative: true,
        })
    } else {
        None
    }
}

/// The place of the first factor other than 0 from `start` on, or the form's length where there is none.
fn nonzero_from(form: &[i128], start: usize) -> usize
    requires { start ≤ length form.now }
    ensures from { start ≤ result }
    ensures within { result ≤ length form.now }
    ensures zeros { (k : ℕ) → start ≤ k → k < result → slice_index_or form.now k (pos 0) ≡ pos 0 }
    ensures found { result < length form.now → slice_index_or form.now result (pos 0) ≢ pos 0 }
{
    for k in start..form.len() {
        if form[k] != 0 {
            return k;
        }
    }
    form.len()
}
