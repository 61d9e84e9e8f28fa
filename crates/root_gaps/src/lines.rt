//! The lines that refute the ends of a gap's form.
ghost use Rattle.std.specs.Prelude.{◌≡◌, ◌<◌, ◌≤◌, ◌^◌, ◌<ℤ◌, ℤ, pos, [], length, All, IsErrOf, IfErr, IfOk, OnErr, OnOk, ◌++◌, ◌∷◌};
ghost use Rattle.std.specs.Option.{IsSomeAnd};
ghost use Rattle.exact_math.specs.Rational.{whole};
ghost use Rattle.frac128.specs.Range.{IsNarrow};
ghost use Rattle.lp_dict.specs.Systems.{wholes};
ghost use Rattle.farkas_rows.specs.Ends.{inequality_of};
ghost use Rattle.presolve_map.specs.LiftedLines.{LineStays};
ghost use Rattle.presolve_map.specs.ReducedRows.{IsReduced};
ghost use Rattle.row_lifting.specs.Lifting.{none};
ghost use Rattle.farkas_lift.specs.NodeLifting.{root_uses};
ghost use Rattle.node_lines.specs.declared.halt.LineHalt.TheVariants as halts;
ghost use Rattle.exact_nodes.specs.PathExcuses.{end_times, IsHeavyWith};
ghost use Rattle.root_gaps.specs.GapEnds.{ClosesEnd, IsRefutedBy};

use farkas_lift::lift_equalities;
use farkas_rows::{End, FracUse, Line, Path};
use frac128::Frac;
use node_lines::{LineHalt, line_of};
use presolve_map::{WorkRows, WorkTimes, lift_line};
use sequence::NoMemory;
use std::alloc::Global;
use whole_rows::DenseRows;

/// A whole number as a fraction; `Wide` where it is -2 to the power 127.
fn fraction(number: i128) -> Result<Frac, LineHalt>
    ensures value { IfOk result (λ fraction. fraction ≡ whole number) }
    ensures narrow { OnOk result (IsNarrow number) }
    ensures wide { OnErr result (¬ (IsNarrow number)) }
    ensures halt { IfErr result (λ halt. halt ≡ halts.Wide) }
{
    if number == i128::MIN {
        return Err(LineHalt::Wide);
    }
    Ok(Frac::whole(number))
}

/// Puts a fraction at the end.
fn push(fractions: &mut Vec<Frac>, fraction: Frac) -> Result<(), NoMemory>
    ensures { OnOk result (fractions.new.items ≡ fractions.old.items ++ fraction ∷ []) }
{
    fractions.push(fraction)?;
    Ok(())
}

/// Whole numbers as fractions. `Wide` comes exactly where one of them is -2 to the power 127.
pub(crate) fn fractions_of(alloc: Global, numbers: &[i128]) -> Result<Vec<Frac>, LineHalt>
    ensures value { IfOk result (λ fractions. fractions.items ≡ wholes numbers.now) }
    ensures wide { IsErrOf result halts.Wide → ¬ (All IsNarrow numbers.now) }
    ensures never_heavy { IsErrOf result halts.Heavy → ⊥ }
{
    let mut fractions = Vec::new(alloc);
    for number in numbers {
        push(&mut fractions, fraction(*number)?)?;
    }
    Ok(fractions)
}

/// The inequality at the end of a form at the root, so many times.
pub(crate) fn end_times(rows: &DenseRows, times: i128) -> FracUse
    requires { pos 0 <ℤ times }
    ensures { result ≡ end_times rows.now times }
{
    FracUse {
        index: 2 * (rows.rows() + rows.columns()) as u32,
        times: Frac::whole(times),
    }
}

/// The line of the equalities of the root so many times, and of an end as often as the divisor says.
///
/// `Wide` comes exactly where a number leaves the range of `Frac` as the times are carried back to the model's inequalities, and
/// `Heavy` exactly where the line weighs above 2 to the power 126.
pub(crate) fn times_line<'a>(
    alloc: Global,
    rows: &'a DenseRows,
    work: &WorkRows,
    divisor: i128,
    times: &[Frac],
    end: &'a End<'a>,
) -> Result<Line, LineHalt>
    requires presolved { IsReduced rows.now work.now }
    requires refuted { IsSomeAnd (inequality_of end.now) (IsRefutedBy rows.now work.now divisor times.now) }
    ensures line { IfOk result (ClosesEnd rows.now (inequality_of end.now)) }
    ensures wide { IsErrOf result halts.Wide → ¬ (LineStays rows.now none (root_uses rows.now work.now times.now)) }
    ensures heavy { IsErrOf result halts.Heavy → IsHeavyWith rows.now work.now divisor times.now (inequality_of end.now) }
{
    let cut = Frac::whole(0);
    let items = lift_equalities(alloc, rows, work, times)?;
    let mut items = lift_line(alloc, rows, &WorkTimes { cut, items })?;
    items.push(end_times(rows, divisor))?;
    let path = Path::new(alloc);
    line_of(alloc, rows, &path, None, end, &WorkTimes { cut, items })
}
