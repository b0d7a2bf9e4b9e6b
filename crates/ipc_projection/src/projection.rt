//! Columns that are asked for by their numbers, in any order.
ghost use Rattle.std.specs.Prelude.{◌≡◌, ◌∷◌, ◌⊎◌, [], length, Ok, Err, Some, IfOk, IfErr};
ghost use Rattle.arrow_spec.specs.Files.{columns_right};
ghost use Rattle.arrow_spec.specs.declared.error.IpcError.TheVariants.{Memory};
ghost use Rattle.ipc_projection.specs.Projections.{IsProjection, IsSame, MayProject, numbers_in};

use crate::fields::schema_at;
use crate::places::{places_asked, rising_columns};
use arrow_spec::IpcError;
use arrow_types::{ArrowSchema, ArrowSchemaRef};
use std::alloc::{AllocError, Global};
use std::collections::BTreeMap;

/// What is read for columns that are asked for.
#[derive(Drop)]
pub struct ProjectionInfo {
    /// The numbers of the columns, which rise.
    pub columns: Vec<usize>,
    /// From a place among these numbers to the place asked.
    pub map: BTreeMap<usize, usize>,
    /// The fields asked for, in the order asked.
    pub schema: ArrowSchemaRef,
}

impl ProjectionInfo {
    /// A copy, whose schema is shared.
    pub fn try_clone(&self, alloc: Global) -> Result<ProjectionInfo, AllocError>
        ensures { IfOk result (λ p. IsSame self.now p) }
    {
        Ok(ProjectionInfo {
            columns: self.columns.clone()?,
            map: self.map.clone()?,
            schema: self.schema.clone()?,
        })
    }
}

/// What is read for the columns of these numbers. The first number that is no column's, or that stood before, is refused as `Projection`, and else want of memory.
pub fn prepare_projection(
    alloc: Global,
    schema: &ArrowSchema,
    columns: Vec<usize>,
) -> Result<ProjectionInfo, IpcError>
    ensures ok { IfOk result (λ p. IsProjection schema.now columns.items p) }
    ensures right { IfOk result (λ _. columns_right (Some columns.items) (length schema.now) ≡ Ok tt) }
    ensures err { IfErr result (λ e. (e ≡ Memory) ⊎ (columns_right (Some columns.items) (length schema.now) ≡ Err (e ∷ []))) }
{
    let places = places_asked(alloc, columns.as_slice(), schema.len())?;
    let schema = schema_at(alloc, schema, columns.as_slice())?;
    let (columns, map) = rising_columns(alloc, places.as_slice())?;
    Ok(ProjectionInfo {
        columns,
        map,
        schema,
    })
}

/// The projection onto the columns of these numbers, in their order, if any are asked for.
///
/// # Errors
///
/// As of `prepare_projection`.
pub fn projection_of(
    alloc: Global,
    schema: &ArrowSchema,
    columns: Option<Vec<usize>>,
) -> Result<Option<ProjectionInfo>, IpcError>
    ensures projected { IfOk result (λ p. MayProject schema.now (numbers_in columns) p) }
    ensures right { IfOk result (λ _. columns_right (numbers_in columns) (length schema.now) ≡ Ok tt) }
    ensures err { IfErr result (λ e. (e ≡ Memory) ⊎ (columns_right (numbers_in columns) (length schema.now) ≡ Err (e ∷ []))) }
{
    match columns {
        None => Ok(None),
        Some(columns) => {
            let projection = prepare_projection(alloc, schema, columns)?;
            Ok(Some(projection))
        }
    }
}
