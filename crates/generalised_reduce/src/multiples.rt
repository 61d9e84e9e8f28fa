//! The multiples of a row that are added to the next.
ghost use Rattle.std.specs.Prelude.{◌≡◌, ◌+◌, ◌<◌, ◌≤◌, ◌^◌, [], suc, pos, nat_abs, ◌+ℤ◌, ◌*ℤ◌, ◌≤ℤ◌, length, get_or, take, IfErr, IfOk, IfNone, IfSome, OnOk};
ghost use Rattle.std.specs.List.{All};
ghost use Rattle.exact_math.specs.Rational.{whole, ◌≤ℚ◌};
ghost use Rattle.frac128.specs.Range.{IsNarrow};
ghost use Rattle.norm_gauge.specs.Gauges.{IsGauge};
ghost use Rattle.norm_gauge.specs.Widths.{IsWidth, polytope_of};
ghost use Rattle.spaces.specs.Multiples.{with_multiple};
ghost use Rattle.generalised_reduce.specs.Halts.{SearchHalts, WhereWide};
ghost use Rattle.generalised_reduce.specs.Moves.{FormStays, HaveWidths, IsCandidate};
ghost use Rattle.generalised_reduce.specs.Ready.{Covers, FitsSystem, IsBestMultiple, IsKept, IsLeastMultiple, IsReady};
ghost use Rattle.generalised_reduce.specs.Reduced.{form_at, forms_of, raised};

use crate::halt::Halt;
use crate::numbers::{Span, may_improve, span_at};
use exact_vectors::add_product;
use frac128::Frac;
use lp_dict::System;
use norm_gauge::{Gauge, width};
use sequence::Sequence;
use spaces::{Form, Kernel};
use std::alloc::Global;
use unimodular_pair::Pair;

// A number with a product added, unless a number on the way or the sum is above 2^127 - 1 in size.
fn raised_item(item: i128, factor: i128, other: i128) -> Option<i128>
    ensures value { IfSome result (λ sum. sum ≡ item +ℤ factor *ℤ other) }
    ensures narrow { IfSome result (λ sum. IsNarrow sum) }
    ensures wide { IfNone result (¬ (IsNarrow (factor *ℤ other) × IsNarrow (item +ℤ factor *ℤ other))) }
{
    let sum = add_product(item, factor, other)?;
    if sum == i128::MIN { None } else { Some(sum) }
}

// The target with `factor` times the source added.
fn raised_form(
    alloc: Global,
    target: &[i128],
    source: &[i128],
    factor: i128,
) -> Result<Form<Kernel>, Halt>
    requires { length target.now ≡ length source.now }
    ensures value { IfOk result (λ form. form ≡ with_multiple factor source.now target.now) }
    ensures narrow { IfOk result (λ form. All IsNarrow form) }
    ensures wide { IfErr result (WhereWide (¬ (FormStays factor source.now target.now))) }
{
    let mut items = Sequence::new(alloc);
    for j in 0..target.len() {
        match raised_item(target[j], factor, source[j]) {
            Some(item) => items.push(item)?,
            None => return Err(Halt::Wide),
        }
    }
    Ok(Form::of(items.into_vec()))
}

/// The width of row `i` under the rows before it.
pub(crate) fn row_width(
    alloc: Global,
    system: &System,
    pair: &Pair,
    i: usize,
) -> Result<Gauge, Halt>
    requires ready { IsReady system.now.rows system.now.limits }
    requires fits { FitsSystem system.now.rows.width pair.now }
    requires inside { i < system.now.rows.width }
    ensures gauge { IfOk result (IsGauge (polytope_of system.now.rows system.now.limits) (take i (forms_of pair.now)) (form_at (forms_of pair.now) i)) }
    ensures halt { IfErr result (SearchHalts (polytope_of system.now.rows system.now.limits) pair.now) }
{
    let rows = pair.u();
    let form = Form::of(Vec::from_slice(alloc, rows.row(i))?);
    let gauge = width(alloc, system, rows, i, &form)?;
    Ok(gauge)
}

// The width of row k + 1 with `factor` times row k added, under the rows before row k.
fn tested(
    alloc: Global,
    system: &System,
    pair: &Pair,
    k: usize,
    factor: i128,
) -> Result<Gauge, Halt>
    requires ready { IsReady system.now.rows system.now.limits }
    requires fits { FitsSystem system.now.rows.width pair.now }
    requires inside { k + 1 < system.now.rows.width }
    requires candidate { IsCandidate (polytope_of system.now.rows system.now.limits) (forms_of pair.now) k factor }
    ensures gauge { IfOk result (IsGauge (polytope_of system.now.rows system.now.limits) (take k (forms_of pair.now)) (raised (forms_of pair.now) k (whole factor))) }
    ensures narrow { OnOk result (All IsNarrow (with_multiple factor (get_or pair.now.u k []) (get_or pair.now.u (suc k) []))) }
    ensures halt { IfErr result (SearchHalts (polytope_of system.now.rows system.now.limits) pair.now) }
{
    let rows = pair.u();
    let form = raised_form(alloc, rows.row(k + 1), rows.row(k), factor)?;
    let gauge = width(alloc, system, rows, k, &form)?;
    Ok(gauge)
}

/// A multiple of a row, and the gauge of the next row with it added.
#[derive(Debug, Drop)]
pub(crate) struct Kept {
    pub(crate) factor: i128,
    pub(crate) gauge: Gauge,
}

impl Kept {
    // The width at the multiple.
    fn width(&self) -> Frac
        ensures { result ≡ self.now.gauge.value }
    {
        self.gauge.value
    }

    // Tests a multiple of row k, and keeps it where it is better.
    fn try_multiple(
        &mut self,
        alloc: Global,
        system: &System,
        pair: &Pair,
        k: usize,
        widths: &Widths,
        factor: i128,
    ) -> Result<(), Halt>
        requires ready { IsReady system.now.rows system.now.limits }
        requires fits { FitsSystem system.now.rows.width pair.now }
        requires inside { k + 1 < system.now.rows.width }
        requires widths { HaveWidths (polytope_of system.now.rows system.now.limits) (forms_of pair.now) k widths.now.before widths.now.width }
        requires kept { IsKept (polytope_of system.now.rows system.now.limits) pair.now k widths.now.width self.old.factor self.old.gauge }
        requires narrow { nat_abs factor < 2 ^ 127 }
        ensures kept { OnOk result (IsKept (polytope_of system.now.rows system.now.limits) pair.now k widths.now.width self.new.factor self.new.gauge) }
        ensures covers { OnOk result (Covers (polytope_of system.now.rows system.now.limits) (forms_of pair.now) k self.new.gauge.value factor) }
        ensures no_worse { OnOk result (self.new.gauge.value ≤ℚ self.old.gauge.value) }
        ensures halt { IfErr result (SearchHalts (polytope_of system.now.rows system.now.limits) pair.now) }
    {
        let near = may_improve(factor, widths.before, widths.width);
        if !near {
            return Ok(());
        }
        let gauge = tested(alloc, system, pair, k, factor)?;
        let best = self.gauge.value;
        if best <= gauge.value {
            return Ok(());
        }
        *self = Kept { factor, gauge };
        Ok(())
    }

    // Tries the multiples of row k in the span.
    fn search_span(
        &mut self,
        alloc: Global,
        system: &System,
        pair: &Pair,
        k: usize,
        widths: &Widths,
        span: Span,
    ) -> Result<(), Halt>
        requires ready { IsReady system.now.rows system.now.limits }
        requires fits { FitsSystem system.now.rows.width pair.now }
        requires inside { k + 1 < system.now.rows.width }
        requires widths { HaveWidths (polytope_of system.now.rows system.now.limits) (forms_of pair.now) k widths.now.before widths.now.width }
        requires kept { IsKept (polytope_of system.now.rows system.now.limits) pair.now k widths.now.width self.old.factor self.old.gauge }
        requires order { span.low ≤ℤ span.high }
        requires low_narrow { nat_abs span.low < 2 ^ 127 }
        requires high_narrow { nat_abs span.high < 2 ^ 127 }
        ensures least { OnOk result (IsLeastMultiple (polytope_of system.now.rows system.now.limits) pair.now k span.low span.high self.new.factor self.new.gauge) }
        ensures halt { IfErr result (SearchHalts (polytope_of system.now.rows system.now.limits) pair.now) }
    {
        let mut factor = span.low;
        self.try_multiple(alloc, system, pair, k, widths, factor)?;
        while factor < span.high {
            factor += 1;
            self.try_multiple(alloc, system, pair, k, widths, factor)?;
        }
        Ok(())
    }
}

/// The widths of two neighbours under the rows before them.
#[derive(Clone, Copy, Debug)]
pub(crate) struct Widths {
    pub(crate) before: Frac,
    pub(crate) width: Frac,
}

// Row k + 1 as it is, with its gauge under the rows before row k.
fn unmoved(alloc: Global, system: &System, pair: &Pair, k: usize) -> Result<Kept, Halt>
    requires ready { IsReady system.now.rows system.now.limits }
    requires fits { FitsSystem system.now.rows.width pair.now }
    requires inside { k + 1 < system.now.rows.width }
    ensures kept { IfOk result (λ none. IsKept (polytope_of system.now.rows system.now.limits) pair.now k none.gauge.value none.factor none.gauge) }
    ensures width { IfOk result (λ none. IsWidth (polytope_of system.now.rows system.now.limits) (take k (forms_of pair.now)) (form_at (forms_of pair.now) (suc k)) none.gauge.value) }
    ensures halt { IfErr result (SearchHalts (polytope_of system.now.rows system.now.limits) pair.now) }
{
    let gauge = tested(alloc, system, pair, k, 0)?;
    Ok(Kept { factor: 0, gauge })
}

// The multiple of row k in the span at which row k + 1 is least wide; none where no other is better.
fn least_multiple(
    alloc: Global,
    system: &System,
    pair: &Pair,
    k: usize,
    before: Frac,
    span: Span,
) -> Result<Kept, Halt>
    requires ready { IsReady system.now.rows system.now.limits }
    requires fits { FitsSystem system.now.rows.width pair.now }
    requires inside { k + 1 < system.now.rows.width }
    requires before { IsWidth (polytope_of system.now.rows system.now.limits) (take k (forms_of pair.now)) (form_at (forms_of pair.now) k) before }
    requires order { span.low ≤ℤ span.high }
    requires low_narrow { nat_abs span.low < 2 ^ 127 }
    requires high_narrow { nat_abs span.high < 2 ^ 127 }
    ensures least { IfOk result (λ best. IsLeastMultiple (polytope_of system.now.rows system.now.limits) pair.now k span.low span.high best.factor best.gauge) }
    ensures halt { IfErr result (SearchHalts (polytope_of system.now.rows system.now.limits) pair.now) }
{
    let mut best = unmoved(alloc, system, pair, k)?;
    let width = best.width();
    let widths = Widths { before, width };
    match best.search_span(alloc, system, pair, k, &widths, span) {
        Ok(()) => Ok(best),
        Err(halt) => Err(halt),
    }
}

/// The multiple of row k at which row k + 1 is least wide under the rows before row k, given the gauges of both rows, each
/// under the rows before it. It lies next to the fraction that the multipliers of the second gauge give (Cook, Rutherford,
/// Scarf, Shallcross, An implementation of the generalized basis reduction algorithm for integer programming, ORSA Journal
/// on Computing 5, 1993).
pub(crate) fn best_multiple(
    alloc: Global,
    system: &System,
    pair: &Pair,
    k: usize,
    before: &Gauge,
    next: &Gauge,
) -> Result<Kept, Halt>
    requires ready { IsReady system.now.rows system.now.limits }
    requires fits { FitsSystem system.now.rows.width pair.now }
    requires inside { k + 1 < system.now.rows.width }
    requires before { IsGauge (polytope_of system.now.rows system.now.limits) (take k (forms_of pair.now)) (form_at (forms_of pair.now) k) before.now }
    requires next { IsGauge (polytope_of system.now.rows system.now.limits) (take (suc k) (forms_of pair.now)) (form_at (forms_of pair.now) (suc k)) next.now }
    ensures best { IfOk result (λ best. IsBestMultiple (polytope_of system.now.rows system.now.limits) pair.now k best.factor best.gauge) }
    ensures halt { IfErr result (SearchHalts (polytope_of system.now.rows system.now.limits) pair.now) }
{
    let place = 2 * system.rows.rows() + 2 * k;
    let span = span_at(next.below.items(), place);
    let best = least_multiple(alloc, system, pair, k, before.value, span)?;
    Ok(best)
}
