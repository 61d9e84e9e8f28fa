//! Short forms over the work columns for the coordinates of a frame.
ghost use Rattle.std.specs.Prelude.{◌≡◌};

use crate::forms::short::Shortener;
use crate::halt::Halt;
use crate::numbers::factors::add_row;
use crate::programs::Sliced;
use reformulate::Frame;
use sequence::NoMemory;
use spaces::{Grid, Kernel, Space, Work};
use std::alloc::Global;

/// The most rows and columns of a matrix here.
const MOST: usize = 256;

/// A matrix of zeros.
fn zeros<S: Space>(alloc: Global, rows: usize, width: usize) -> Result<Grid<S, i128>, Halt> {
    if rows > MOST || width > MOST {
        return Err(Halt::GivesUp);
    }
    Ok(Grid::filled(alloc, rows, width, 0)?)
}

/// The product of two matrices.
fn product<S: Space, T: Space>(
    alloc: Global,
    left: &Grid<S, i128>,
    right: &Grid<T, i128>,
) -> Result<Grid<T, i128>, Halt> {
    let mut all = zeros(alloc, left.rows(), right.width())?;
    if left.rows() != all.rows() || left.width() != right.rows() {
        return Err(Halt::GivesUp);
    }
    for i in 0..left.rows() {
        combine(all.row_mut(i), left.row(i), right).ok_or(Halt::GivesUp)?;
    }
    Ok(all)
}

/// Adds the rows of a matrix with their multipliers.
pub(crate) fn combine<T: Space>(
    sum: &mut [i128],
    times: &[i128],
    rows: &Grid<T, i128>,
) -> Option<()> {
    if times.len() != rows.rows() {
        return None;
    }
    for k in 0..times.len() {
        if times[k] != 0 {
            add_row(sum, rows.row(k), times[k])?;
        }
    }
    Some(())
}

/// A matrix without its first row.
fn without_first_row<S: Space>(alloc: Global, from: &Grid<S, i128>) -> Result<Grid<S, i128>, Halt> {
    let rows = from.rows();
    if rows == 0 {
        return Err(Halt::GivesUp);
    }
    let mut rest = zeros(alloc, rows - 1, from.width())?;
    if rest.rows() != rows - 1 || rest.width() != from.width() {
        return Err(Halt::GivesUp);
    }
    for i in 0..rows - 1 {
        rest.row_mut(i).copy_from_slice(from.row(i + 1));
    }
    Ok(rest)
}

/// A matrix without its first column.
fn without_first_column<S: Space>(
    alloc: Global,
    from: &Grid<S, i128>,
) -> Result<Grid<S, i128>, Halt> {
    let width = from.width();
    if width == 0 {
        return Err(Halt::GivesUp);
    }
    let mut rest = zeros(alloc, from.rows(), width - 1)?;
    if rest.rows() != from.rows() || rest.width() != width - 1 {
        return Err(Halt::GivesUp);
    }
    for i in 0..from.rows() {
        rest.row_mut(i).copy_from_slice(&from.row(i)[1..]);
    }
    Ok(rest)
}

/// Makes each row shorter.
fn shorten_rows(forms: &mut Grid<Work, i128>, short: &Shortener) -> Result<(), Halt> {
    for i in 0..forms.rows() {
        short.shorten(forms.row_mut(i)).ok_or(Halt::GivesUp)?;
    }
    Ok(())
}

/// The forms of the coordinates of a frame.
pub(crate) fn own_forms(alloc: Global, frame: &Frame) -> Result<Grid<Work, i128>, NoMemory> {
    let back = frame.back();
    let mut forms = Grid::filled(alloc, back.rows(), back.width(), 0)?;
    for i in 0..back.rows() {
        forms.row_mut(i).copy_from_slice(back.row(i));
    }
    Ok(forms)
}

/// Short forms that have the values of the coordinates of the root's frame, up to constants.
pub(crate) fn root_forms(
    alloc: Global,
    frame: &Frame,
    short: &Shortener,
) -> Result<Grid<Work, i128>, Halt> {
    let mut forms = own_forms(alloc, frame)?;
    shorten_rows(&mut forms, short)?;
    Ok(forms)
}

/// Short forms for the frame of a slice, from those of the frame that was sliced along the first row of the pair. The frame's
/// own forms tell how its coordinates come from those that the pair has left; they may be long.
pub(crate) fn slice_forms(
    alloc: Global,
    forms: &Grid<Work, i128>,
    sliced: Sliced<'_>,
    short: &Shortener,
) -> Result<Grid<Work, i128>, Halt> {
    let Sliced {
        frame,
        pair,
        slice,
        ..
    } = sliced;
    let left = product(alloc, &without_first_row(alloc, pair.u())?, forms)?;
    let vectors: Grid<Kernel, i128> = product(
        alloc,
        frame.to_work().lines(),
        &without_first_column(alloc, pair.v())?,
    )?;
    let turn = product(alloc, slice.back(), &vectors)?;
    let mut all = product(alloc, &turn, &left)?;
    shorten_rows(&mut all, short)?;
    Ok(all)
}
