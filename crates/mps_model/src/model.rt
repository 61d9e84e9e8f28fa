//! The model that the tables of a text state.

pub(crate) mod column_judgement;
pub(crate) mod model_building;
pub(crate) mod row_sides;
