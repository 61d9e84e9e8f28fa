//! Bland's simplex.
ghost use Rattle.std.specs.Prelude.{◌≡◌, ◌≢◌, ℕ, ◌+◌, ◌*◌, ◌<◌, ◌≤◌, ◌^◌, ◌↔◌, List, [], length, IfOk, IfErr, OnOk};
ghost use Rattle.exact_math.specs.Rational.{ℚ};
ghost use Rattle.lp_dict.specs.Dictionaries.{first_dictionary};
ghost use Rattle.lp_dict.specs.Sizes.{MeetsCondition};
ghost use Rattle.lp_dict.specs.Systems.{left_sides, wholes, IsPoint};
ghost use Rattle.lp_solve.specs.Certificates.{IsBounded};
ghost use Rattle.lp_solve.specs.Outcomes.{SolvedIs, StopIs, SaysEmpty};
ghost use Rattle.lp_solve.specs.Ended.{EndsSo};
ghost use Rattle.lp_solve.specs.Endings.{EndsAs, EndingIs};
ghost use Rattle.lp_solve.specs.Rule.{AreLegal};

use crate::answer::{Ended, LpExcuse, LpStop, Pivots, Solved};
use crate::finish::{empty, least};
use crate::search::{Step, next_step};
use lp_dict::{Dict, System};
use sequence::NoMemory;
use spaces::{Form, Kernel};
use std::alloc::Global;

// How many pivots are made.
const MOST_PIVOTS: usize = 20000;

/// How the pivots end.
#[derive(Clone, Copy, Debug, Drop)]
pub(crate) enum Ending {
    /// The slack of this row is below 0 at each point.
    Stuck { row: usize },
    /// The form is least.
    Optimal,
    /// The next pivot is wide.
    Wide { row: u32, column: u32 },
    /// Another is due after as many as are made.
    Many,
}

// How they end where no more are made.
fn ending_of(step: Step) -> Ending
    ensures { EndsAs step result }
{
    match step {
        Step::NoPoint { row } => Ending::Stuck { row },
        Step::Least => Ending::Optimal,
        Step::Pivot { .. } => Ending::Many,
        Step::WideQuotient { .. } => Ending::Many,
    }
}

// Makes the pivots of the rule one after another.
fn run(
    dict: &mut Dict,
    pivots: &mut Pivots,
    rows: usize,
    columns: usize,
) -> Result<Ending, NoMemory>
    requires rows { rows ≡ length dict.old.basic }
    requires columns { columns ≡ length dict.old.outside }
    requires small { rows + columns < 2 ^ 32 }
    requires none_made { pivots.old ≡ [] }
    ensures legal { OnOk result (AreLegal dict.old pivots.new) }
    ensures ending { IfOk result (EndingIs dict.old dict.new pivots.new) }
{
    for _made in 0..MOST_PIVOTS {
        match next_step(dict, rows, columns) {
            Step::Pivot { row, column } => {
                let place = (row as u32, column as u32);
                if dict.pivot(row, column).is_err() {
                    return Ok(Ending::Wide {
                        row: place.0,
                        column: place.1,
                    });
                }
                pivots.push(place)?;
            }
            Step::WideQuotient { row, column } => {
                return Ok(Ending::Wide {
                    row: row as u32,
                    column: column as u32,
                });
            }
            Step::NoPoint { row } => return Ok(Ending::Stuck { row }),
            Step::Least => return Ok(Ending::Optimal),
        }
    }
    Ok(ending_of(next_step(dict, rows, columns)))
}

/// The least value of the form at the rational points of the system, by pivots of Bland's rule from the dictionary in which
/// each slack is basic, and these pivots.
///
/// The multipliers, one for each row, show each answer. An excuse has the pivots that were made, each a row and a column.
pub fn minimise_with_pivots(
    alloc: Global,
    system: &System,
    form: &Form<Kernel>,
) -> Result<Ended, LpStop>
    requires condition { MeetsCondition system.now.rows system.now.limits form.now }
    requires bounded { IsBounded (length form.now) (left_sides system.now.rows) (wholes system.now.limits) }
    ensures solved { IfOk result (λ ended. SolvedIs (left_sides system.now.rows) (wholes system.now.limits) (wholes form.now) ended.solved) }
    ensures empty { IfOk result (λ ended. SaysEmpty ended.solved ↔ ((y : List ℚ) → ¬ (IsPoint (length form.now) (left_sides system.now.rows) (wholes system.now.limits) y))) }
    ensures pivots { IfOk result (λ ended. EndsSo (first_dictionary (left_sides system.now.rows) (wholes system.now.limits) (wholes form.now)) ended.pivots ended.solved) }
    ensures stopped { IfErr result (StopIs (left_sides system.now.rows) (wholes system.now.limits) (wholes form.now)) }
{
    let rows = system.rows.rows();
    let columns = system.rows.width();
    let mut dict = Dict::of(alloc, system, form)?;
    let mut pivots = Pivots::new(alloc);
    match run(&mut dict, &mut pivots, rows, columns)? {
        Ending::Stuck { row } => {
            let solved = empty(alloc, &dict, row, rows, columns)?;
            Ok(Ended { solved, pivots })
        }
        Ending::Optimal => {
            let solved = least(alloc, &dict, rows, columns)?;
            Ok(Ended { solved, pivots })
        }
        Ending::Wide { row, column } => Err(LpStop::Excuse(LpExcuse::WidePivot {
            pivots,
            row,
            column,
        })),
        Ending::Many => Err(LpStop::Excuse(LpExcuse::ManyPivots { pivots })),
    }
}

/// The least value of the form at the rational points of the system, as `minimise_with_pivots` finds it.
pub fn minimise(alloc: Global, system: &System, form: &Form<Kernel>) -> Result<Solved, LpStop>
    requires condition { MeetsCondition system.now.rows system.now.limits form.now }
    requires bounded { IsBounded (length form.now) (left_sides system.now.rows) (wholes system.now.limits) }
    ensures solved { IfOk result (SolvedIs (left_sides system.now.rows) (wholes system.now.limits) (wholes form.now)) }
    ensures empty { IfOk result (λ answer. SaysEmpty answer ↔ ((y : List ℚ) → ¬ (IsPoint (length form.now) (left_sides system.now.rows) (wholes system.now.limits) y))) }
    ensures stopped { IfErr result (StopIs (left_sides system.now.rows) (wholes system.now.limits) (wholes form.now)) }
{
    let Ended {
        solved,
        pivots: _pivots,
    } = minimise_with_pivots(alloc, system, form)?;
    Ok(solved)
}
