//! The lines of a node from the answers of its linear programs.
ghost use Rattle.std.specs.Prelude.{◌≡◌, ◌+ℤ◌, pos, length, None, Some, FitsSigned, IfErr, IfOk, SomeIff};
ghost use mir.Syntax.{w128};
ghost use Rattle.std.specs.List.{All};
ghost use Rattle.exact_math.specs.Ring.{integers};
ghost use Rattle.exact_vectors.specs.Vectors.{dot, negate, zeros};
ghost use Rattle.farkas_rows.specs.Inequalities.{above, below};
ghost use Rattle.frac128.specs.Range.{IsNarrow};
ghost use Rattle.lp_dict.specs.Systems.{wholes};
ghost use Rattle.lp_solve.specs.Ended.{EndsSo};
ghost use Rattle.lp_solve.specs.declared.answer.Solved.TheVariants as answers;
ghost use Rattle.norm_gauge.specs.Gauges.{program};
ghost use Rattle.norm_gauge.specs.Widths.{IsInhabited};
ghost use Rattle.proof_tree.specs.Moves.{ClosesUnder};
ghost use Rattle.spaces.specs.Tables.{rows_in};
ghost use Rattle.reformulate.specs.Substitutions.{dimension_of};
ghost use Rattle.node_regions.specs.NodeRegions.{node_polytope};
ghost use Rattle.exact_nodes.specs.ExactMoves.{HaltsSo, IsNodeOf};
ghost use Rattle.exact_nodes.specs.NodeExcuses.{IsChosenDirection, IsModelForm, back_form, halt_of};
ghost use Rattle.exact_nodes.specs.Programs.{IsSought};
ghost use Rattle.exact_nodes.specs.Regions.{AnswerIs, IsFirstValue, IsLastValue, IsOptimum, IsRegion};

use crate::excuse::{Excuse, LiftBasis, LineBasis};
use crate::forms::{ModelForm, copied};
use crate::halt::Halt;
use crate::region::answer;
use farkas_rows::{End, Line};
use frac128::Frac;
use lp_dict::System;
use lp_solve::{Ended, Pivots, Solved, Weights};
use node_lines::{LineHalt, Node, empty_line, end_line};
use sequence::NoMemory;
use spaces::{Form, Kernel};
use std::alloc::Global;

/// Why there is no line of the multipliers at these pivots.
fn no_line(halt: LineHalt, pivots: Pivots) -> Halt
    ensures { result ≡ halt_of halt pivots }
{
    match halt {
        LineHalt::Wide => Halt::Excused(Excuse::Lift(LiftBasis { pivots })),
        LineHalt::Heavy => Halt::Excused(Excuse::HeavyLine(LineBasis { pivots })),
        LineHalt::NoMemory => Halt::NoMemory,
    }
}

/// The line of a node without points, from the multipliers at these pivots.
pub(crate) fn closing_line<'a>(
    alloc: Global,
    node: &Node<'a>,
    multipliers: Weights,
    pivots: Pivots,
) -> Result<Line, Halt>
    requires node { IsNodeOf node.now.model.now node.now.work.now node.now.frame.now node.now.path.now }
    requires shown { AnswerIs (node_polytope node.now.frame.now node.now.work.now node.now.cut) (zeros integers (dimension_of node.now.frame.now)) (answers.Empty multipliers) }
    requires ends { EndsSo (program (node_polytope node.now.frame.now node.now.work.now node.now.cut) (wholes (zeros integers (dimension_of node.now.frame.now)))) pivots (answers.Empty multipliers) }
    ensures line { IfOk result (ClosesUnder node.now.model.now node.now.cut node.now.path.now None) }
    ensures halt { IfErr result (HaltsSo node.now.model.now node.now.work.now node.now.frame.now node.now.path.now node.now.cut) }
{
    match empty_line(alloc, node, multipliers.items()) {
        Ok(line) => Ok(line),
        Err(halt) => Err(no_line(halt, pivots)),
    }
}

/// An end of a form at a node: the first or the last whole value that it has there, and the line that refutes the values beyond.
#[derive(Drop)]
pub(crate) struct EndValue {
    pub(crate) value: i128,
    pub(crate) line: Line,
}

/// A point at which a form is least on a region that has points.
#[derive(Drop)]
struct Optimum {
    value: Frac,
    multipliers: Weights,
    pivots: Pivots,
}

/// The least value of a form on the region of a node, which has points.
fn least<'a>(
    alloc: Global,
    node: &Node<'a>,
    system: &System,
    form: &Form<Kernel>,
) -> Result<Optimum, Halt>
    requires node { IsNodeOf node.now.model.now node.now.work.now node.now.frame.now node.now.path.now }
    requires region { IsRegion node.now.frame.now node.now.work.now node.now.cut system.now }
    requires inhabited { IsInhabited (node_polytope node.now.frame.now node.now.work.now node.now.cut) }
    requires sought { IsSought (node_polytope node.now.frame.now node.now.work.now node.now.cut) (rows_in node.now.frame.now.to_work.lines) form.now }
    requires coordinates { length form.now ≡ dimension_of node.now.frame.now }
    requires narrow { All IsNarrow form.now }
    ensures optimum { IfOk result (λ o. IsOptimum (node_polytope node.now.frame.now node.now.work.now node.now.cut) form.now o.pivots o.value o.multipliers) }
    ensures halt { IfErr result (HaltsSo node.now.model.now node.now.work.now node.now.frame.now node.now.path.now node.now.cut) }
{
    let Ended { solved, pivots } = answer(alloc, node, system, form)?;
    match solved {
        Solved::Least {
            point: _point,
            value,
            multipliers,
        } => Ok(Optimum {
            value,
            multipliers,
            pivots,
        }),
        Solved::Empty {
            multipliers: _multipliers,
        } => unreachable!(),
    }
}

/// The lower end of a direction: its first whole value at points of the node, and the line of the values below.
pub(crate) fn lower_end<'a>(
    alloc: Global,
    node: &Node<'a>,
    system: &System,
    form: &Form<Kernel>,
    moved: &ModelForm,
) -> Result<EndValue, Halt>
    requires node { IsNodeOf node.now.model.now node.now.work.now node.now.frame.now node.now.path.now }
    requires region { IsRegion node.now.frame.now node.now.work.now node.now.cut system.now }
    requires chosen { IsChosenDirection (node_polytope node.now.frame.now node.now.work.now node.now.cut) (rows_in node.now.frame.now.to_work.lines) form.now }
    requires narrow { All IsNarrow form.now }
    requires form { IsModelForm node.now.model.now node.now.work.now node.now.frame.now form.now moved.now.form }
    requires constant { moved.now.constant ≡ dot integers (back_form node.now.frame.now form.now) node.now.frame.now.to_work.base }
    ensures first { IfOk result (λ end. IsFirstValue (node_polytope node.now.frame.now node.now.work.now node.now.cut) form.now moved.now.constant end.value) }
    ensures line { IfOk result (λ end. ClosesUnder node.now.model.now node.now.cut node.now.path.now (Some (below moved.now.form end.value)) end.line) }
    ensures halt { IfErr result (HaltsSo node.now.model.now node.now.work.now node.now.frame.now node.now.path.now node.now.cut) }
{
    let optimum = least(alloc, node, system, form)?;
    let Some(lo) = optimum.value.ceil().checked_add(moved.constant) else {
        return Err(Halt::Excused(Excuse::WideMap(copied(alloc, form)?)));
    };
    let end = End::Below {
        form: &moved.form,
        lo,
    };
    match end_line(alloc, node, &end, optimum.multipliers.items()) {
        Ok(line) => Ok(EndValue { value: lo, line }),
        Err(halt) => Err(no_line(halt, optimum.pivots)),
    }
}

/// The form with the other sign.
fn opposite(alloc: Global, form: &Form<Kernel>) -> Result<Form<Kernel>, NoMemory>
    requires { All IsNarrow form.now }
    ensures value { IfOk result (λ other. other ≡ negate integers form.now) }
    ensures narrow { IfOk result (All IsNarrow) }
{
    let factors = form.items();
    let mut items = Vec::with_capacity(alloc, factors.len())?;
    for j in 0..factors.len() {
        items.push(-factors[j])?;
    }
    Ok(Form::of(items))
}

/// The next whole number above a sum.
///
/// `None` comes exactly where the sum or that number leaves `i128`.
fn next_above(value: i128, constant: i128) -> Option<i128>
    ensures { SomeIff result (FitsSigned w128 (value +ℤ constant) × FitsSigned w128 ((value +ℤ constant) +ℤ pos 1)) ((value +ℤ constant) +ℤ pos 1) }
{
    value.checked_add(constant)?.checked_add(1)
}

/// The upper end of a direction: its last whole value at points of the node, and the line of the values above.
pub(crate) fn upper_end<'a>(
    alloc: Global,
    node: &Node<'a>,
    system: &System,
    form: &Form<Kernel>,
    moved: &ModelForm,
) -> Result<EndValue, Halt>
    requires node { IsNodeOf node.now.model.now node.now.work.now node.now.frame.now node.now.path.now }
    requires region { IsRegion node.now.frame.now node.now.work.now node.now.cut system.now }
    requires chosen { IsChosenDirection (node_polytope node.now.frame.now node.now.work.now node.now.cut) (rows_in node.now.frame.now.to_work.lines) form.now }
    requires narrow { All IsNarrow form.now }
    requires form { IsModelForm node.now.model.now node.now.work.now node.now.frame.now form.now moved.now.form }
    requires constant { moved.now.constant ≡ dot integers (back_form node.now.frame.now form.now) node.now.frame.now.to_work.base }
    ensures last { IfOk result (λ end. IsLastValue (node_polytope node.now.frame.now node.now.work.now node.now.cut) form.now moved.now.constant end.value) }
    ensures line { IfOk result (λ end. ClosesUnder node.now.model.now node.now.cut node.now.path.now (Some (above moved.now.form (end.value +ℤ pos 1))) end.line) }
    ensures halt { IfErr result (HaltsSo node.now.model.now node.now.work.now node.now.frame.now node.now.path.now node.now.cut) }
{
    let other = opposite(alloc, form)?;
    let optimum = least(alloc, node, system, &other)?;
    let Some(from) = next_above(optimum.value.neg().floor(), moved.constant) else {
        return Err(Halt::Excused(Excuse::WideMap(copied(alloc, form)?)));
    };
    let end = End::Above {
        form: &moved.form,
        from,
    };
    match end_line(alloc, node, &end, optimum.multipliers.items()) {
        Ok(line) => Ok(EndValue {
            value: from - 1,
            line,
        }),
        Err(halt) => Err(no_line(halt, optimum.pivots)),
    }
}
