//! The checks by which the answers of the fast way are believed.
ghost use Rattle.std.specs.Prelude.{◌≡◌, ◌≤◌, ◌^◌, ◌↔◌, ◌+◌, pos, length, All, Some, IfSome, IsTrue};
ghost use Rattle.whole_rows.specs.WholeRows.{reach};
ghost use Rattle.farkas_rows.specs.Ends.{inequality_of};
ghost use Rattle.farkas_rows.specs.Refutes.{HasForms, IsDense};
ghost use Rattle.proof_tree.specs.declared.tree.Mark.TheVariants.{Thin};
ghost use Rattle.proof_tree.specs.Moves.{widest, ClosesUnder, SplitsUnder};
ghost use Rattle.proof_tree.specs.Trees.{IsSplitForm};
ghost use Rattle.node_regions.specs.NodeFrames.{IsKeptFactor, IsKeptForm};
ghost use Rattle.slice_branch.specs.ClosedEnds.{HasClosedEnds};

use farkas_rows::{CutUse, End, Line, Path, refutes};
use node_search::Direction;
use proof_tree::{Cut, Mark};
use whole_rows::{Bounds, DenseRows, span_of};

/// The greatest size of the first value of a split.
const LARGEST_VALUE: i128 = 1 << 97;

/// The greatest difference between the two bounds of a column, and at least 0.
pub(crate) fn widest_of(bounds: &[Bounds]) -> i128
    requires { All (λ b. reach b ≤ 2 ^ 96) bounds.now }
    ensures value { result ≡ pos (widest bounds.now) }
    ensures small { widest bounds.now ≤ 2 ^ 97 }
{
    let Some((first, rest)) = bounds.split_first() else {
        return 0;
    };
    let rest = widest_of(rest);
    let difference = first.high - first.low;
    if difference > rest { difference } else { rest }
}

/// Whether a cut that is used has the best value.
fn is_cut_under(best: Option<i128>, cut: &Option<CutUse>) -> bool
    ensures { IsTrue result → IfSome cut.now (λ cut. best ≡ Some cut.value) }
{
    match (best, cut) {
        (_, None) => true,
        (Some(best), Some(cut)) => best == cut.value,
        (None, Some(_)) => false,
    }
}

/// Whether the line closes the path with the end, and uses the cut of the best value alone.
pub(crate) fn closes_under<'a>(
    rows: &'a DenseRows,
    best: Option<i128>,
    path: &'a Path,
    end: &'a End<'a>,
    line: &Line,
) -> bool
    requires path { HasForms (length rows.now.box) path.now }
    requires end { IfSome (inequality_of end.now) (IsDense (length rows.now.box)) }
    ensures { IsTrue result → ClosesUnder rows.now best path.now (inequality_of end.now) line.now }
{
    is_cut_under(best, &line.cut) && refutes(rows, path, end, line)
}

/// Whether a factor is 0 where its column has one value.
fn is_kept_factor(bounds: Bounds, factor: i128) -> bool
    ensures { IsTrue result ↔ IsKeptFactor bounds factor }
{
    bounds.low != bounds.high || factor == 0
}

/// Whether the form has a factor for each column, which is 0 where the column has one value.
pub(crate) fn is_kept_form(bounds: &[Bounds], form: &[i128]) -> bool
    ensures { IsTrue result ↔ IsKeptForm bounds.now form.now }
{
    if bounds.len() != form.len() {
        return false;
    }
    for j in 0..form.len() {
        if !is_kept_factor(bounds[j], form[j]) {
            return false;
        }
    }
    true
}

/// Whether the form is one of a split.
fn is_split_form(rows: &DenseRows, form: &[i128]) -> bool
    ensures { IsTrue result ↔ IsSplitForm rows.now form.now }
{
    form.len() == rows.columns()
        && form.iter().any(|factor| *factor != 0)
        && span_of(form, rows.bounds()).is_some()
}

/// Whether the values between the two ends are at most `most` whole numbers from `lo` on, and both ends are closed.
fn has_closed_ends(
    rows: &DenseRows,
    best: Option<i128>,
    path: &Path,
    most: i128,
    direction: &Direction,
) -> bool
    requires forms { HasForms (length rows.now.box) path.now }
    requires most { most ≡ pos (widest rows.now.box + 1) }
    requires small { widest rows.now.box ≤ 2 ^ 97 }
    ensures { IsTrue result → HasClosedEnds rows.now best path.now direction.now }
{
    let Direction {
        form,
        lo,
        count,
        below,
        above,
    } = direction;
    let lo = *lo;
    let count = *count;
    if !is_split_form(rows, form.items())
        || lo < -LARGEST_VALUE
        || lo > LARGEST_VALUE
        || count < 0
        || count > most
    {
        return false;
    }
    let from = lo + count;
    closes_under(rows, best, path, &End::Below { form, lo }, below)
        && closes_under(rows, best, path, &End::Above { form, from }, above)
}

/// The split into the slices of a direction, where it passes its checks.
pub(crate) fn split_of(
    rows: &DenseRows,
    best: Option<i128>,
    path: &Path,
    most: i128,
    direction: Direction,
) -> Option<Cut>
    requires forms { HasForms (length rows.now.box) path.now }
    requires most { most ≡ pos (widest rows.now.box + 1) }
    requires small { widest rows.now.box ≤ 2 ^ 97 }
    ensures splits { IfSome result (SplitsUnder rows.now best path.now) }
    ensures mark { IfSome result (λ cut. cut.mark ≡ Thin) }
    ensures form { IfSome result (λ cut. cut.form ≡ direction.form) }
    ensures lo { IfSome result (λ cut. cut.lo ≡ direction.lo) }
    ensures count { IfSome result (λ cut. cut.count ≡ direction.count) }
{
    if !has_closed_ends(rows, best, path, most, &direction) {
        return None;
    }
    let Direction {
        form,
        lo,
        count,
        below,
        above,
    } = direction;
    Some(Cut {
        form,
        lo,
        count,
        below,
        above,
        mark: Mark::Thin,
    })
}
