//! Forms and values over all columns of a model.
use crate::halt::Halt;
use node_task::{OpenModel, Task};
use spaces::{Form, Original};
use std::alloc::Global;

/// The form over all columns with these factors in the work columns. It gives up where there are more factors or fewer.
pub(crate) fn lifted(
    alloc: Global,
    model: &OpenModel,
    factors: &[i128],
) -> Result<Form<Original>, Halt> {
    model.lifted(alloc, factors)?.ok_or(Halt::GivesUp)
}

/// The form that is the value of work column `j`.
pub(crate) fn column(alloc: Global, model: &OpenModel, j: usize) -> Result<Form<Original>, Halt> {
    let mut factors = vec![in alloc; 0; model.map.lines().width()]?;
    let Some(factor) = factors.get_mut(j) else {
        return Err(Halt::GivesUp);
    };
    *factor = 1;
    lifted(alloc, model, &factors)
}

/// The numerator of work column `j` among those of all columns.
pub(crate) fn work_value(model: &OpenModel, numerators: &[i128], j: usize) -> Option<i128> {
    if j >= model.work.columns() {
        return None;
    }
    numerators
        .get(model.work.original_column(j) as usize)
        .copied()
}

/// Whether some column has costs.
pub(crate) fn has_costs(task: Task<'_>) -> bool {
    task.rows.cost().iter().any(|factor| *factor != 0)
}
