//! The move that settles a root.
ghost use Rattle.std.specs.Prelude.{◌≡◌, [], IfOk};
ghost use Rattle.whole_rows.specs.WholeRows.{WholeRows};
ghost use Rattle.slice_branch.specs.Settling.{move_of};

use crate::place::Settled;
use farkas_rows::Line;
use proof_tree::{Cut, Move};
use sequence::{NoMemory, Sequence};
use spaces::Form;
use std::alloc::Global;

/// A copy of the line.
pub(crate) fn copy_of(alloc: Global, line: &Line) -> Result<Line, NoMemory>
    ensures { IfOk result (λ copy. copy ≡ line.now) }
{
    let items = Sequence::from_vec(line.items.items().to_vec(alloc)?);
    Ok(Line {
        cut: line.cut,
        items,
    })
}

/// A copy of the split.
fn copy_of_cut(alloc: Global, cut: &Cut) -> Result<Cut, NoMemory>
    ensures { IfOk result (λ copy. copy ≡ cut.now) }
{
    let form = Form::of(cut.form.items().to_vec(alloc)?);
    let below = copy_of(alloc, &cut.below)?;
    let above = copy_of(alloc, &cut.above)?;
    Ok(Cut {
        form,
        lo: cut.lo,
        count: cut.count,
        below,
        above,
        mark: cut.mark,
    })
}

/// The move that settles a root, once more.
pub(crate) fn settled_move(alloc: Global, settled: &Settled) -> Result<Move, NoMemory>
    ensures { IfOk result (λ found. found ≡ move_of settled.now) }
{
    match settled {
        Settled::Closed(line) => Ok(Move::Close(copy_of(alloc, line)?)),
        Settled::Gap(cut) => Ok(Move::Split(copy_of_cut(alloc, cut)?)),
    }
}
