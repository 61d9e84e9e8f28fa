//! The inequalities and equalities of a node by their numbers in the model.
ghost use Rattle.std.specs.Prelude.{◌≡◌, ◌+◌, ◌*◌, ◌<◌, ◌≤◌, ◌^◌, ◌++◌, ◌∷◌, [], length, IfOk, OnOk, slice_index};
ghost use Rattle.std.specs.List.{All};
ghost use Rattle.presolve_map.specs.ReducedRows.{IsReduced};
ghost use Rattle.farkas_lift.specs.Joined.{joined};
ghost use Rattle.farkas_lift.specs.NodeLifting.{place_with, row_places, column_places, node_places, side_use, equality_use, uses_of};
ghost use Rattle.farkas_lift.specs.NodeLifting.{HasRoom};
ghost use Rattle.farkas_lift.specs.declared.place.Place.TheVariants.{Equality};
ghost use Rattle.whole_rows.specs.WholeRows.{IsWithinLimits};

use crate::side::common_side;
use farkas_rows::FracUse;
use frac128::Frac;
use presolve_map::WorkRows;
use sequence::NoMemory;
use std::alloc::Global;
use whole_rows::DenseRows;

/// How many slices a path has at most that is lifted. No node's path has more than twice as many slices as a model has columns.
pub(crate) const LONGEST_PATH: usize = 1 << 16;

/// What stands under a number of the model at a node, or under that number and the next.
#[derive(Clone, Copy, Debug, Drop)]
pub enum Place {
    /// An inequality that is none of the equalities, by its number.
    Side(u32),
    /// An equality, by the number of its upper side; its lower side has the next.
    Equality(u32),
}

/// The places of a node, in the order of their numbers.
pub(crate) fn node_places(
    alloc: Global,
    model: &DenseRows,
    rows: &WorkRows,
    slices: usize,
) -> Result<Vec<Place>, NoMemory>
    requires reduced { IsReduced model.now rows.now }
    requires short { slices ≤ LONGEST_PATH }
    ensures value { IfOk result (λ places. places.items ≡ node_places model.now rows.now slices) }
    ensures room { IfOk result (λ places. All HasRoom places.items) }
    ensures limits { IsWithinLimits model.now }
{
    let before_slices = model.rows() + model.columns();
    let mut places = Vec::with_capacity(alloc, 2 * (rows.rows() + rows.columns()) + slices)?;
    append_rows(&mut places, model, rows)?;
    append_columns(&mut places, model, rows)?;
    append_slices(&mut places, before_slices, slices)?;
    Ok(places)
}

/// Puts the places of the rows at the end.
fn append_rows(places: &mut Vec<Place>, model: &DenseRows, rows: &WorkRows) -> Result<(), NoMemory>
    requires { IsReduced model.now rows.now }
    ensures { OnOk result (places.new.items ≡ places.old.items ++ joined (row_places rows.now) (length rows.now.rows.rows)) }
{
    for i in 0..rows.rows() {
        append_row(places, rows, i, 2 * row_number(model, rows, i))?;
    }
    Ok(())
}

/// Puts the places of a row at the end, twice whose number this is.
fn append_row(
    places: &mut Vec<Place>,
    rows: &WorkRows,
    i: usize,
    number: u32,
) -> Result<(), NoMemory>
    requires there { i < length rows.now.rows.rows }
    requires number { number ≡ 2 * slice_index rows.now.row_numbers i }
    requires small { number < 2 ^ 31 }
    ensures { OnOk result (places.new.items ≡ places.old.items ++ row_places rows.now i) }
{
    let low = rows.low(i);
    let high = rows.high(i);
    if common_side(low, high).is_some() {
        places.push(Place::Equality(number))?;
        return Ok(());
    }
    push_place(places, Place::Side(number), high)?;
    push_place(places, Place::Side(number + 1), low)
}

/// Puts a place at the end, where there is a value for it.
fn push_place(places: &mut Vec<Place>, place: Place, value: Option<i128>) -> Result<(), NoMemory>
    ensures { OnOk result (places.new.items ≡ places.old.items ++ place_with place value) }
{
    if value.is_some() {
        places.push(place)?;
    }
    Ok(())
}

/// The number of a row in the model, which has as many rows at least.
fn row_number(model: &DenseRows, rows: &WorkRows, i: usize) -> u32
    requires reduced { IsReduced model.now rows.now }
    requires there { i < length rows.now.rows.rows }
    ensures value { result ≡ slice_index rows.now.row_numbers i }
    ensures below { result < length model.now.rows }
    ensures few { length model.now.rows ≤ 256 }
{
    let _rows = model.rows();
    rows.original_row(i)
}

/// The number of a column in the model, which has as many columns at least.
fn column_number(model: &DenseRows, rows: &WorkRows, j: usize) -> u32
    requires reduced { IsReduced model.now rows.now }
    requires there { j < length rows.now.rows.box }
    ensures value { result ≡ slice_index rows.now.column_numbers j }
    ensures below { result < length model.now.box }
    ensures few { length model.now.box ≤ 256 }
{
    let _columns = model.columns();
    rows.original_column(j)
}

/// Puts the places of the columns at the end.
fn append_columns(
    places: &mut Vec<Place>,
    model: &DenseRows,
    rows: &WorkRows,
) -> Result<(), NoMemory>
    requires { IsReduced model.now rows.now }
    ensures { OnOk result (places.new.items ≡ places.old.items ++ joined (column_places model.now rows.now) (length rows.now.rows.box)) }
{
    let before = model.rows() as u32;
    for j in 0..rows.columns() {
        let number = 2 * (before + column_number(model, rows, j));
        places.push(Place::Side(number))?;
        places.push(Place::Side(number + 1))?;
    }
    Ok(())
}

/// Puts the places of the slices at the end, behind those of so many rows and columns of the model.
fn append_slices(places: &mut Vec<Place>, before: usize, slices: usize) -> Result<(), NoMemory>
    requires few { before ≤ 512 }
    requires short { slices ≤ LONGEST_PATH }
    ensures { OnOk result (places.new.items ≡ places.old.items ++ joined (λ k. Equality (2 * (before + k)) ∷ []) slices) }
{
    for k in 0..slices {
        places.push(Place::Equality(2 * (before + k) as u32))?;
    }
    Ok(())
}

/// The places with their multipliers: the next weight at a side, and the next multiplier of an equality at an equality.
pub(crate) fn uses_of(
    alloc: Global,
    places: &[Place],
    weights: &[Frac],
    times: &[Frac],
) -> Result<Vec<FracUse>, NoMemory>
    requires { All HasRoom places.now }
    ensures { IfOk result (λ uses. uses.items ≡ uses_of places.now weights.now times.now) }
{
    let mut uses = Vec::new(alloc);
    let mut side = 0;
    let mut equality = 0;
    for place in places {
        match *place {
            Place::Side(number) => {
                if side >= weights.len() {
                    return Ok(uses);
                }
                push_side(&mut uses, number, &weights[side])?;
                side += 1;
            }
            Place::Equality(number) => {
                if equality >= times.len() {
                    return Ok(uses);
                }
                push_equality(&mut uses, number, &times[equality])?;
                equality += 1;
            }
        }
    }
    Ok(uses)
}

/// Puts the inequality of this number at the end, so many times; nothing where that is 0.
fn push_side(uses: &mut Vec<FracUse>, index: u32, times: &Frac) -> Result<(), NoMemory>
    ensures { OnOk result (uses.new.items ≡ uses.old.items ++ side_use index times.now) }
{
    if times.num() != 0 {
        uses.push(FracUse {
            index,
            times: *times,
        })?;
    }
    Ok(())
}

/// Puts an equality at the end, so many times: a negative multiplier on its lower side, with its size.
fn push_equality(uses: &mut Vec<FracUse>, number: u32, times: &Frac) -> Result<(), NoMemory>
    requires { number + 1 < 2 ^ 32 }
    ensures { OnOk result (uses.new.items ≡ uses.old.items ++ equality_use number times.now) }
{
    if times.num() < 0 {
        uses.push(FracUse {
            index: number + 1,
            times: times.neg(),
        })?;
        return Ok(());
    }
    push_side(uses, number, times)
}
