//! Combinations with fractions as multipliers, and the line with the least whole ones.
ghost use Rattle.std.specs.Prelude.{◌≡◌, ℕ, ◌^◌, ◌<◌, ℤ, pos, ◌≤ℤ◌, ◌<ℤ◌, List, [], length, map, All, IfOk, IsErrOf, IfSome, IfNone, IsSome, OnSome, ◌≢◌, nat_abs};
ghost use Rattle.std.specs.List.{AllZip};
ghost use Rattle.std.specs.Int.{◌∣◌};
ghost use Rattle.exact_math.specs.Rational.{whole, ◌/ℚ◌, ◌<ℚ◌};
ghost use Rattle.frac128.specs.Range.{InRange};
ghost use Rattle.farkas_rows.specs.Ends.{inequality_of};
ghost use Rattle.farkas_rows.specs.Inequalities.{inequality_at};
ghost use Rattle.farkas_rows.specs.LeastLine.{IsInRatio, IsCommon, IsLeastLine, fractions, first_of, cut_with};
ghost use Rattle.farkas_rows.specs.Refutes.{HasForms, IsDense, multipliers, line_weight};
ghost use Rattle.farkas_rows.specs.declared.fracs.LineStop.TheVariants as stops;
ghost use Rattle.farkas_rows.specs.declared.line.Line.{Line};

use crate::judge::weigh;
use crate::line::{CutUse, End, Line, Use, Uses, Weight};
use crate::path::Path;
use frac128::{Frac, lcm};
use sequence::{NoMemory, Sequence};
use std::alloc::Global;
use std::error::Error;
use std::fmt;
use whole_rows::DenseRows;

/// The inequality of this number, so many times.
#[derive(Clone, Copy, Debug, Drop)]
pub struct FracUse {
    pub index: u32,
    pub times: Frac,
}

/// The cut with this value, so many times.
#[derive(Clone, Copy, Debug, Drop)]
pub struct CutFrac {
    pub value: i128,
    pub times: Frac,
}

/// Inequalities with their multipliers, in rising order of number.
pub type OriginalTimes = Sequence<FracUse>;

/// Why there is no line: it would weigh above 2 to the power 126, or there was no memory for it.
#[derive(Clone, Copy, Debug, PartialEq, Eq, Drop)]
pub enum LineStop {
    Heavy,
    NoMemory,
}

impl fmt::Display for LineStop {
    ghost use Rattle.std.specs.Prelude.{Some};
    ghost use Rattle.farkas_rows.specs.LineStops.{line_stop_text};

    ghost output = { λ stop. Some (line_stop_text stop) };

    fn fmt<W: fmt::Write>(&self, f: &mut fmt::Formatter<W>) -> fmt::Result {
        match self {
            LineStop::Heavy => f.write_str("the line is too heavy"),
            LineStop::NoMemory => f.write_str("out of memory"),
        }
    }
}

impl Error for LineStop {}

impl From<NoMemory> for LineStop {
    ghost use Rattle.farkas_rows.specs.declared.fracs.LineStop.TheVariants.{NoMemory as OutOfMemory};

    ghost from_gives = { λ _ stop. stop ≡ OutOfMemory };

    fn from(_error: NoMemory) -> LineStop {
        LineStop::NoMemory
    }
}

/// The line with the least whole multipliers that are a multiple of these, which are above 0 and name inequalities of the
/// node. There is a multiplier, and the forms of the path and of the end have a factor for each column.
///
/// `Heavy` comes exactly where that line weighs above 2 to the power 126.
pub fn from_fracs<'a>(
    alloc: Global,
    rows: &'a DenseRows,
    path: &'a Path,
    end: &'a End<'a>,
    cut: &Option<CutFrac>,
    times: &OriginalTimes,
) -> Result<Line, LineStop>
    requires path { HasForms (length rows.now.box) path.now }
    requires end { IfSome (inequality_of end.now) (IsDense (length rows.now.box)) }
    requires some { fractions cut.now times.now ≢ [] }
    requires positive { All (λ part. whole (pos 0) <ℚ part) (fractions cut.now times.now) }
    requires there { All (λ item. IsSome (inequality_at rows.now path.now (inequality_of end.now) item.index)) times.now }
    ensures line { IfOk result (IsLeastLine cut.now times.now) }
    ensures light { IfOk result (λ line. line_weight rows.now path.now (inequality_of end.now) line ≤ℤ pos (2 ^ 126)) }
    ensures heavy { IsErrOf result stops.Heavy → (line : Line) → IsLeastLine cut.now times.now line → pos (2 ^ 126) <ℤ line_weight rows.now path.now (inequality_of end.now) line }
{
    let line = least_line(alloc, cut, times.items())?;
    match weigh(rows, path, end, &line) {
        Weight::Within(_) => Ok(line),
        Weight::Above => Err(LineStop::Heavy),
    }
}

/// The line with the least whole multipliers that are a multiple of these, which are above 0. `Heavy` comes only where
/// one of them is above 2^127 - 1.
fn least_line(alloc: Global, cut: &Option<CutFrac>, items: &[FracUse]) -> Result<Line, LineStop>
    requires some { fractions cut.now items.now ≢ [] }
    requires positive { All (λ part. whole (pos 0) <ℚ part) (fractions cut.now items.now) }
    ensures line { IfOk result (IsLeastLine cut.now items.now) }
    ensures heavy { IsErrOf result stops.Heavy → (line : Line) → IsLeastLine cut.now items.now line → All (λ number. number <ℤ pos (2 ^ 127)) (multipliers line) → ⊥ }
{
    let first = first_times(cut, items);
    let Some(common) = common_multiple(&first, items) else {
        return Err(LineStop::Heavy);
    };
    Ok(Line {
        cut: whole_cut(common, cut),
        items: whole_items(alloc, common, &first, items)?,
    })
}

/// The multiplier of the cut, where it is used, and else of the first item.
fn first_times(cut: &Option<CutFrac>, items: &[FracUse]) -> Frac
    requires { fractions cut.now items.now ≢ [] }
    ensures { result ≡ first_of cut.now items.now }
{
    match cut {
        Some(cut) => cut.times,
        None => items[0].times,
    }
}

/// The cut with a whole multiplier, where it is used.
fn whole_cut(common: i128, cut: &Option<CutFrac>) -> Option<CutUse>
    ensures { result ≡ cut_with common cut.now }
{
    match cut {
        Some(cut) => Some(CutUse {
            value: cut.value,
            times: common,
        }),
        None => None,
    }
}

/// The items with the whole numbers that are to `common` as their multipliers to the first one. `Heavy` comes only where
/// one of them is above 2^127 - 1.
fn whole_items(
    alloc: Global,
    common: i128,
    first: &Frac,
    items: &[FracUse],
) -> Result<Uses, LineStop>
    requires first { first.now.num ≢ pos 0 }
    requires in_range { All (λ item. InRange (item.times /ℚ first.now)) items.now }
    requires positive { All (λ item. pos 0 <ℤ (item.times /ℚ first.now).num) items.now }
    requires common { pos 1 ≤ℤ common }
    requires multiple { All (λ item. (item.times /ℚ first.now).den ∣ nat_abs common) items.now }
    ensures numbers { IfOk result (λ uses. map (λ use_of. use_of.index) uses ≡ map (λ item. item.index) items.now) }
    ensures ratios { IfOk result (λ uses. AllZip (λ item use_of. IsInRatio common first.now item.times use_of.times) items.now uses) }
    ensures heavy { IsErrOf result stops.Heavy → (number : ℤ) (results : List ℤ) → common ≤ℤ number → AllZip (λ item result. IsInRatio number first.now item.times result × (result <ℤ pos (2 ^ 127))) items.now results → ⊥ }
{
    let mut uses = Uses::new(alloc);
    for item in items {
        let Some(times) = whole_times(common, first, &item.times) else {
            return Err(LineStop::Heavy);
        };
        uses.push(Use {
            index: item.index,
            times,
        })?;
    }
    Ok(uses)
}

/// The least number that the denominators of all multipliers over the first one divide; none where there is no such
/// number below 2^127, or a quotient is out of range.
fn common_multiple(first: &Frac, items: &[FracUse]) -> Option<i128>
    requires { first.now.num ≢ pos 0 }
    ensures in_range { OnSome result (All (λ item. InRange (item.times /ℚ first.now)) items.now) }
    ensures common { IfSome result (IsCommon (λ item. (item.times /ℚ first.now).den) items.now) }
    ensures none { IfNone result ((n : ℕ) → 0 < n → n < 2 ^ 127 → All (λ item. InRange (item.times /ℚ first.now)) items.now → All (λ item. (item.times /ℚ first.now).den ∣ n) items.now → ⊥) }
{
    let mut common = 1;
    for item in items {
        let Ok(ratio) = item.times.div(first) else {
            return None;
        };
        common = lcm(common, ratio.den())?;
    }
    Some(common)
}

/// The whole number that is to `common` as `times` to the first multiplier; none where it is above 2^127 - 1.
fn whole_times(common: i128, first: &Frac, times: &Frac) -> Option<i128>
    requires first { first.now.num ≢ pos 0 }
    requires in_range { InRange (times.now /ℚ first.now) }
    requires positive { pos 0 <ℤ (times.now /ℚ first.now).num }
    requires common { pos 1 ≤ℤ common }
    requires multiple { (times.now /ℚ first.now).den ∣ nat_abs common }
    ensures some { IfSome result (IsInRatio common first.now times.now) }
    ensures none { IfNone result ((number result : ℤ) → common ≤ℤ number → IsInRatio number first.now times.now result → result <ℤ pos (2 ^ 127) → ⊥) }
{
    let ratio = times.div(first).unwrap();
    (common / ratio.den()).checked_mul(ratio.num())
}
