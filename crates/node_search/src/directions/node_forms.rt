//! The forms of a node by which it is measured.
use crate::directions::thin::{Thin, column_form};
use crate::halt::Halt;
use crate::model::lifted;
use node_task::OpenModel;
use spaces::{Form, Original};
use std::alloc::Global;

/// Forms over all columns, by which a node and its parts are measured.
#[derive(Debug, Drop)]
pub(crate) struct NodeForms {
    /// The free columns, made primitive.
    pub(crate) columns: Vec<Form<Original>>,
    /// The short forms of the coordinates, in their order.
    pub(crate) coordinates: Vec<Form<Original>>,
}

impl NodeForms {
    /// Those of a node with this frame.
    pub(crate) fn of(alloc: Global, model: &OpenModel, thin: Thin<'_>) -> Result<NodeForms, Halt> {
        Ok(NodeForms {
            columns: free_columns(alloc, model, thin)?,
            coordinates: coordinates(alloc, model, thin)?,
        })
    }
}

/// The free columns, made primitive.
fn free_columns(
    alloc: Global,
    model: &OpenModel,
    thin: Thin<'_>,
) -> Result<Vec<Form<Original>>, Halt> {
    let mut columns = Vec::new(alloc);
    for j in 0..thin.forms.width() {
        if let Some(form) = column_form(alloc, model, thin, j)? {
            columns.push(form)?;
        }
    }
    Ok(columns)
}

/// The short forms of the coordinates.
fn coordinates(
    alloc: Global,
    model: &OpenModel,
    thin: Thin<'_>,
) -> Result<Vec<Form<Original>>, Halt> {
    let mut forms = Vec::with_capacity(alloc, thin.forms.rows())?;
    for k in 0..thin.forms.rows() {
        forms.push(lifted(alloc, model, thin.forms.row(k))?)?;
    }
    Ok(forms)
}
