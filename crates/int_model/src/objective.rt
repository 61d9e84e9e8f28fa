//! The objective of integer rows: whole costs, and what makes a value of them.
ghost use Rattle.std.specs.Prelude.{◌≡◌, ◌^◌, ◌<◌, length, pos, ◌<ℤ◌, ◌≤ℤ◌, nat_abs, OnOk, IfOk, IsErrOf, SomeIff, IfSome, OnSome, IfNone};
ghost use Rattle.whole_rows.specs.WholeRows.{with_cost, span as span_of};
ghost use Rattle.int_model.specs.declared.part.PartStop.TheVariants as part_stops;
ghost use Rattle.int_model.specs.Scale.{common_denominator, common_numerator};
ghost use Rattle.int_model.specs.IntegerRows.{integer_rows, objective_of, cost as cost_of, IsDistinctBelow};
ghost use Rattle.int_model.specs.ObjectiveValues.{value_factor as value_factor_of, MakesValues};
ghost use Rattle.int_model.specs.Large.{IsLargeObjective};

use crate::model::Model;
use crate::part::PartStop;
use crate::products::push_products;
use crate::scales::{RowScale, scale_of};
use frac128::{Frac, lcm};
use whole_rows::{DenseRows, with_term};

/// The value of a point is (`constant` + `factor` * its cut value) / `divisor`.
#[derive(Clone, Copy, Debug, Drop)]
pub(crate) struct ValueTerms {
    pub(crate) constant: i128,
    pub(crate) factor: i128,
    pub(crate) divisor: i128,
}

/// Puts the costs of a model's objective, and gives what makes a value of a sum of costs. The costs are made in
/// `cost`, whatever stands there.
pub(crate) fn set_objective(
    whole: &mut DenseRows,
    cost: &mut Vec<i128>,
    model: &Model,
) -> Result<ValueTerms, PartStop>
    requires columns { whole.old.box ≡ (integer_rows model.now).whole.box }
    requires items { IsDistinctBelow (length model.now.columns) model.now.objective }
    ensures cost { OnOk result (whole.new ≡ with_cost whole.old (cost_of model.now)) }
    ensures terms { IfOk result (MakesValues model.now) }
    ensures small { OnOk result (IsLargeObjective model.now → ⊥) }
    ensures large { IsErrOf result part_stops.Large → IsLargeObjective model.now }
{
    let items = model.objective.items();
    let Some(scale) = scale_of(items) else {
        return Err(PartStop::Large);
    };
    cost.clear();
    push_products(cost, whole.columns(), items, &scale.times)?;
    let span = whole.set_cost(cost)?;
    let Some(terms) = terms_of(&scale, span, model) else {
        return Err(PartStop::Large);
    };
    Ok(terms)
}

/// What makes a value of a sum of costs, from the scale of the objective's coefficients and the span of the costs; none
/// where the objective is large.
#[tactic(auto, using(crate::proofs::ScaleLaws::common_denominator_pos, crate::proofs::CheckedProductLaws::above_zero, crate::proofs::ObjectiveLaws::constant_found, crate::proofs::ObjectiveLaws::constant_not_found, crate::proofs::ObjectiveLaws::divisor_found, crate::proofs::ObjectiveLaws::divisor_not_found, crate::proofs::ObjectiveLaws::factor_found, crate::proofs::ObjectiveLaws::factor_not_found, crate::proofs::ObjectiveLaws::first_not_found, crate::proofs::ObjectiveLaws::objective_is_small, crate::proofs::ObjectiveLaws::total_found, crate::proofs::ObjectiveLaws::total_not_found))]
fn terms_of(scale: &RowScale, span: u128, model: &Model) -> Option<ValueTerms>
    requires denominator { scale.now.denominator ≡ pos (common_denominator (objective_of model.now)) }
    requires numerator { scale.now.numerator ≡ pos (common_numerator (objective_of model.now)) }
    requires span { span ≡ span_of (cost_of model.now) (integer_rows model.now).whole.box }
    ensures terms { IfSome result (MakesValues model.now) }
    ensures small { OnSome result (IsLargeObjective model.now → ⊥) }
    ensures large { IfNone result (IsLargeObjective model.now) }
{
    let divisor = lcm(model.constant.den(), scale.denominator)?;
    let Ok(multiple) = Frac::whole(divisor).mul(&model.constant) else {
        return None;
    };
    let constant = multiple.num();
    let factor = value_factor(divisor, scale.denominator, scale.numerator)?;
    let sum = with_term(0, constant, 1)?;
    with_term(sum, factor, span)?;
    Some(ValueTerms {
        constant,
        factor,
        divisor,
    })
}

/// The divisor over the denominator, times the numerator, and the divisor where that is 0; none where this is above
/// 2^127 - 1.
#[tactic(auto, using(crate::proofs::CheckedProductLaws::factor_answered))]
fn value_factor(divisor: i128, denominator: i128, numerator: i128) -> Option<i128>
    requires divisor { pos 0 ≤ℤ divisor }
    requires denominator { pos 0 <ℤ denominator }
    requires numerator { pos 0 ≤ℤ numerator }
    ensures { SomeIff result (value_factor_of (nat_abs divisor) (nat_abs denominator) (nat_abs numerator) < 2 ^ 127) (pos (value_factor_of (nat_abs divisor) (nat_abs denominator) (nat_abs numerator))) }
{
    if numerator == 0 {
        return Some(divisor);
    }
    (divisor / denominator).checked_mul(numerator)
}
