//! Columns that are asked for, in the order asked (Arrow Columnar Format, "RecordBatch message").
#![tactic(auto)]

mod apply;
mod fields;
mod items;
mod iterator;
mod places;
mod projection;

pub use apply::apply_projection;
pub use iterator::{ProjectionIter, ProjectionResult};
pub use projection::{ProjectionInfo, prepare_projection, projection_of};
