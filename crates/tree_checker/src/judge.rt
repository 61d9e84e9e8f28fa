//! The judgement of a proof text, one line after another.
ghost use Rattle.std.specs.Prelude.{◌≡◌, ◌↔◌, IsTrue, MatchOption, IfOk};
ghost use Rattle.tree_checker.specs.Stages.{at_head, at_end};
ghost use Rattle.tree_checker.specs.Passes.{PassesTo};
ghost use Rattle.tree_checker.specs.Faults.{IsFault};

use crate::claim::judge_claim;
use crate::closing::room_for_items;
use crate::node::{judge_above, judge_below, judge_done, judge_head, judge_node};
use crate::stack::OpenSplits;
use crate::step::{Step, settle};
use crate::verdict::RejectKind;
use farkas_rows::Use;
use proof_text::{Claim, NoMemory};
use spaces::{Form, Original, Vect};
use std::alloc::Global;
use std::marker::Model;
use whole_rows::DenseRows;

/// A judge of a proof text over these rows, who is handed its lines in order. All memory is taken at the start. Contracts
/// see the rows, and what the next line is to be.
#[derive(Drop)]
pub(crate) struct Judge<'a> {
    rows: &'a DenseRows,
    step: Step,
    /// The claimed point, where one is claimed.
    point: Vec<i128>,
    /// The cut value of the claimed point; none where the claim is that there is no point.
    last: Option<i128>,
    splits: OpenSplits,
    /// The form of a split whose ends are being closed.
    form: Form<Original>,
    /// Room for the items of a line.
    items: Vec<Use>,
}

impl<'a> Model for Judge<'a> {
    ghost use Rattle.tree_checker.specs.Judging.{Judged};

    ghost Value = { Judged };

    ghost use Rattle.tree_checker.specs.Claims.{claim_of};
    ghost use Rattle.tree_checker.specs.Judging.{stage_of, IsJudge};

    ghost view = { λ j. record { rows = j.rows.now; stage = stage_of j.step (claim_of j.point.items j.last) j.splits.splits j.form } };

    ghost invariant = { λ j. IsJudge j.rows.now j.step j.point.items j.last j.splits j.form j.items.items };
}

impl<'a> Judge<'a> {
    ghost use Rattle.tree_checker.specs.Judging.{IsAtEnd};

    /// A judge who waits for the first line.
    pub(crate) fn new(alloc: Global, rows: &'a DenseRows) -> Result<Judge<'a>, NoMemory>
        ensures { IfOk result (λ judge. judge ≡ record { rows = rows.now; stage = at_head }) }
    {
        let columns = rows.columns();
        let point = vec![in alloc; 0; columns]?;
        let splits = OpenSplits::new(alloc, columns)?;
        let form = Form::of(vec![in alloc; 0; columns]?);
        let items = room_for_items(alloc, rows)?;
        Ok(Judge {
            rows,
            step: Step::Head,
            point,
            last: None,
            splits,
            form,
            items,
        })
    }

    /// Whether the text may end here: the line `DONE` has passed.
    pub(crate) fn is_at_end(&self) -> bool
        ensures { IsTrue result ↔ IsAtEnd self.now.stage }
    {
        matches!(self.step, Step::End)
    }

    /// Judges the next line, which is not too long: why it does not pass, or no reason where it does. It takes no memory.
    pub(crate) fn line(&mut self, text: &[u8]) -> Option<RejectKind>
        requires { ¬ IsAtEnd self.old.stage }
        ensures rows { self.new.rows ≡ self.old.rows }
        ensures judged { MatchOption result (PassesTo self.old.rows self.old.stage text.now self.new.stage) (IsFault self.old.rows self.old.stage text.now) }
    {
        match self.step {
            Step::Head => settle(&mut self.step, judge_head(text)),
            Step::Claim => match judge_claim(self.rows, self.point.as_mut_slice(), text) {
                Ok(last) => {
                    self.last = last;
                    self.splits.clear();
                    self.step = Step::Node;
                    None
                }
                Err(kind) => Some(kind),
            },
            Step::Node => settle(
                &mut self.step,
                judge_node(
                    self.rows,
                    &mut self.splits,
                    &mut self.form,
                    self.last,
                    self.items.as_mut_slice(),
                    text,
                ),
            ),
            Step::Below(range) => settle(
                &mut self.step,
                judge_below(
                    self.rows,
                    &self.splits,
                    &self.form,
                    range,
                    self.last,
                    self.items.as_mut_slice(),
                    text,
                ),
            ),
            Step::Above(range) => settle(
                &mut self.step,
                judge_above(
                    self.rows,
                    &mut self.splits,
                    &mut self.form,
                    range,
                    self.last,
                    self.items.as_mut_slice(),
                    text,
                ),
            ),
            Step::Done => settle(&mut self.step, judge_done(text)),
            Step::End => unreachable!(),
        }
    }

    /// The claim of a text that may end here.
    pub(crate) fn into_claim(self) -> Claim
        requires { IsAtEnd self.stage }
        ensures { self.entry.stage ≡ at_end result }
    {
        let Judge {
            rows: _,
            step: _,
            point,
            last,
            splits: _,
            form: _,
            items: _,
        } = self;
        match last {
            Some(_) => Claim::Optimal(Vect::of(point)),
            None => Claim::Infeasible,
        }
    }
}
