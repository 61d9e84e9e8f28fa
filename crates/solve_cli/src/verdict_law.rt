//! What the texts give. The function here does nothing of its own; its contract carries the laws.
ghost use Rattle.std.specs.Prelude.{◌≡◌, ◌⊎◌, ◌≤◌, ℕ, List, length, Some};
ghost use Rattle.int_model.specs.declared.model.Model.{Model};
ghost use Rattle.solve_cli.specs.declared.status.Status.{Status};
ghost use Rattle.solve_cli.specs.Words.{Job, checking, budget_of};
ghost use Rattle.solve_cli.specs.Limits.{most_proof_bytes};
ghost use Rattle.solve_cli.specs.Verdict.{enough_nodes};
ghost use Rattle.solve_cli.specs.Answer.{Gives, SameUnlessSpent, StatesSmall, IsDecided, IsChecked};

use tree_checker::one_verdict;

/// Where a model is solved its text gives one status at most, unless the budget is spent, and where a proof is checked the two texts
/// give one status at most. So a run answers each of them exactly where its cause holds, but for want of memory and faults. A model
/// without a large part is decided, unless the budget is spent, which it is not where it has enough nodes. A proof within its limit
/// that is checked against such a model is accepted, or refused at a line.
pub fn one_status_is_given()
    ensures one { (command : Job) (nodes : ℕ) (text proof : List ℕ) (one other : Status) → budget_of command.task ≡ Some nodes → Gives command text proof one → Gives command text proof other
        → SameUnlessSpent one other }
    ensures one_check { (command : Job) (text proof : List ℕ) (one other : Status) → command.task ≡ checking → Gives command text proof one → Gives command text proof other → one ≡ other }
    ensures ends { (command : Job) (nodes : ℕ) (text proof : List ℕ) (model : Model) (status : Status) → budget_of command.task ≡ Some nodes → StatesSmall command.reading text model
        → Gives command text proof status → IsDecided model status ⊎ (status ≡ Status.Spent) }
    ensures enough { (command : Job) (nodes : ℕ) (text proof : List ℕ) (model : Model) (status : Status) → budget_of command.task ≡ Some nodes → StatesSmall command.reading text model
        → enough_nodes model ≤ nodes → Gives command text proof status → IsDecided model status }
    ensures checks { (command : Job) (text proof : List ℕ) (model : Model) (status : Status) → command.task ≡ checking → StatesSmall command.reading text model
        → length proof ≤ most_proof_bytes → Gives command text proof status → IsChecked model proof status }
{
    one_verdict();
}
