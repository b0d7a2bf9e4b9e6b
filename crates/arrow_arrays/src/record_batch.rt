//! Record batches: columns of one height, each under a field of a schema.
ghost use Rattle.std.specs.Prelude.{◌≡◌, ◌==◌, ◌<◌, ◌≤◌, length, [], Some, None, IfOk, IfErr, IfSome, true};
ghost use Rattle.std.specs.Rc.{rc_value};
ghost use Rattle.arrow_types.specs.KindOf.{texts_of};
ghost use Rattle.ipc_fields.specs.IpcFields.{metadata_of, metadata_in};
ghost use Rattle.arrow_arrays.specs.Parts.{forest, fault_each};
ghost use Rattle.arrow_arrays.specs.PartsOf.{all_parts_of, forest_of};
ghost use Rattle.arrow_arrays.specs.Batches.{batch_fault, have_rows};

use crate::array::Array;
use crate::structs::{are_of_rows, clone_each};
use arrow_spec::IpcError;
use arrow_types::{ArrowSchemaRef, Metadata};
use ipc_fields::copy_if_any;
use std::alloc::{AllocError, Global};
use std::marker::Model;
use thiserror::Error;

/// Why columns make no record batch: the first of these that holds, in this order.
#[derive(Clone, Copy, Debug, PartialEq, Eq, Error)]
pub enum BatchError {
    /// There are not as many columns as the schema has fields.
    #[error("the number of columns is not that of the schema's fields")]
    Width,
    /// A column does not have as many rows as the batch.
    #[error("a column does not have the batch's number of rows")]
    Height,
}

impl From<BatchError> for IpcError {
    ghost use Rattle.std.specs.Prelude.{◌≡◌};
    ghost use Rattle.arrow_spec.specs.declared.error.IpcError.TheVariants.{SchemaMismatch};

    ghost from_gives = { λ _ e. e ≡ SchemaMismatch };

    fn from(_: BatchError) -> IpcError {
        IpcError::SchemaMismatch
    }
}

/// Columns of one height under a schema, with the pairs of their message (Message.fbs, Message: custom_metadata), seen as
/// the height, the schema, the parts of each column, and the pairs.
pub struct RecordBatchT {
    height: usize,
    schema: ArrowSchemaRef,
    arrays: Vec<Array>,
    custom_metadata: Option<Metadata>,
}

impl Drop for RecordBatchT {
    fn drop(self) {
        let RecordBatchT {
            height: _,
            schema,
            arrays,
            custom_metadata,
        } = self;
        drop(schema);
        drop(arrays);
        drop(custom_metadata);
    }
}

/// A record batch of arrays of any kind.
pub type RecordBatch = RecordBatchT;

impl Model for RecordBatchT {
    ghost use Rattle.std.specs.Prelude.{◌<◌, length, IfSome};
    ghost use Rattle.std.specs.Rc.{rc_value};
    ghost use Rattle.ipc_fields.specs.IpcFields.{metadata_of};
    ghost use Rattle.arrow_arrays.specs.Batches.{Batch, batch_code, IsBatch};

    ghost Value = { Batch };

    ghost coded = { batch_code };

    ghost use Rattle.arrow_arrays.specs.PartsOf.{all_parts_of};

    ghost view = { λ a. record { height = a.height; schema = rc_value a.schema; arrays = all_parts_of a.arrays.items; custom = metadata_of a.custom_metadata } };

    ghost invariant = { λ a. IsBatch (record { height = a.height; schema = rc_value a.schema; arrays = all_parts_of a.arrays.items; custom = metadata_of a.custom_metadata }) × IfSome a.custom_metadata (λ m. 0 < length m.entries) };
}

/// Whether each array has so many rows.
#[tactic(auto, using(crate::proofs::Heights::heights_are_rows))]
fn are_of_height(arrays: &[Array], height: usize) -> bool
    ensures rows { result ≡ have_rows height (all_parts_of arrays.now) }
    ensures sound { result ≡ true → fault_each (forest_of arrays.now) ≡ None }
{
    are_of_rows(arrays, height)
}

impl RecordBatchT {
    /// The batch of these columns.
    pub fn try_new(
        height: usize,
        schema: ArrowSchemaRef,
        arrays: Vec<Array>,
    ) -> Result<RecordBatch, BatchError>
        ensures ok { IfOk result (λ b. b ≡ record { height = height; schema = rc_value schema; arrays = all_parts_of arrays.items; custom = [] }) }
        ensures sound { IfOk result (λ b. batch_fault b ≡ None) }
        ensures err { IfErr result (λ e. batch_fault (record { height = height; schema = rc_value schema; arrays = all_parts_of arrays.items; custom = [] }) ≡ Some e) }
    {
        if schema.len() != arrays.len() {
            return Err(BatchError::Width);
        }
        if !are_of_height(arrays.as_slice(), height) {
            return Err(BatchError::Height);
        }
        Ok(RecordBatchT {
            height,
            schema,
            arrays,
            custom_metadata: None,
        })
    }

    /// The batch of columns that are known to suit the schema and the height. It looks at each column's length.
    pub fn new(height: usize, schema: ArrowSchemaRef, arrays: Vec<Array>) -> RecordBatch
        requires { batch_fault (record { height = height; schema = rc_value schema; arrays = all_parts_of arrays.items; custom = [] }) ≡ None }
        ensures { result ≡ record { height = height; schema = rc_value schema; arrays = all_parts_of arrays.items; custom = [] } }
    {
        if !are_of_height(arrays.as_slice(), height) {
            unreachable!();
        }
        RecordBatchT {
            height,
            schema,
            arrays,
            custom_metadata: None,
        }
    }

    /// The same columns with these pairs, which are written with the batch's message. An empty map is none.
    pub fn with_custom_metadata(self, metadata: Metadata) -> RecordBatch
        requires { length metadata.entries ≤ 1048576 }
        ensures { result ≡ record { height = self.height; schema = self.schema; arrays = self.arrays; custom = texts_of metadata.entries } }
    {
        let custom_metadata = if metadata.is_empty() {
            None
        } else {
            Some(metadata)
        };
        let RecordBatchT {
            height,
            schema,
            arrays,
            custom_metadata: _,
        } = self;
        RecordBatchT {
            height,
            schema,
            arrays,
            custom_metadata,
        }
    }

    /// The same columns with these pairs, or with none.
    pub fn with_optional_metadata(self, metadata: Option<Metadata>) -> RecordBatch
        requires { length (metadata_of metadata) ≤ 1048576 }
        ensures { result ≡ record { height = self.height; schema = self.schema; arrays = self.arrays; custom = metadata_of metadata } }
    {
        match metadata {
            None => {
                let RecordBatchT {
                    height,
                    schema,
                    arrays,
                    custom_metadata: _,
                } = self;
                RecordBatchT {
                    height,
                    schema,
                    arrays,
                    custom_metadata: None,
                }
            }
            Some(metadata) => self.with_custom_metadata(metadata),
        }
    }

    /// The pairs of the batch's message, where there are any.
    pub fn custom_metadata(&self) -> Option<&Metadata>
        ensures pairs { metadata_in result ≡ self.now.custom }
        ensures few { length self.now.custom ≤ 1048576 }
        ensures no_empty_metadata { IfSome result (λ m. 0 < length m.now.entries) }
    {
        self.custom_metadata.as_ref()
    }

    /// The columns, in order.
    pub fn arrays(&self) -> &[Array]
        ensures { all_parts_of result.now ≡ self.now.arrays }
    {
        self.arrays.as_slice()
    }

    /// The columns, in order.
    pub fn columns(&self) -> &[Array]
        ensures { all_parts_of result.now ≡ self.now.arrays }
    {
        self.arrays.as_slice()
    }

    /// The columns, in order.
    pub fn as_slice(&self) -> &[Array]
        ensures { all_parts_of result.now ≡ self.now.arrays }
    {
        self.arrays.as_slice()
    }

    /// The schema, which may be shared.
    pub fn schema(&self) -> &ArrowSchemaRef
        ensures { rc_value result.now ≡ self.now.schema }
    {
        &self.schema
    }

    /// How many rows there are.
    pub fn len(&self) -> usize
        ensures rows { result ≡ self.now.height }
        ensures sound { batch_fault self.now ≡ None }
    {
        self.height
    }

    /// How many rows there are.
    pub fn height(&self) -> usize
        ensures rows { result ≡ self.now.height }
        ensures each { have_rows self.now.height self.now.arrays ≡ true }
        ensures sound { fault_each (forest self.now.arrays) ≡ None }
    {
        self.height
    }

    /// How many columns there are.
    pub fn width(&self) -> usize
        ensures columns { result ≡ length self.now.arrays }
        ensures fields { result ≡ length self.now.schema }
    {
        self.arrays.len()
    }

    /// Whether there are no rows.
    pub fn is_empty(&self) -> bool
        ensures { result ≡ (self.now.height == 0) }
    {
        self.height == 0
    }

    /// The columns, in order, without their schema.
    pub fn into_arrays(self) -> Vec<Array>
        ensures { all_parts_of result.items ≡ self.arrays }
    {
        let RecordBatchT {
            height: _,
            schema: _,
            arrays,
            custom_metadata: _,
        } = self;
        arrays
    }

    /// The columns, in order, and the pairs of the batch's message, without their schema.
    pub fn into_arrays_and_metadata(self) -> (Vec<Array>, Option<Metadata>)
        ensures arrays { all_parts_of result.0.items ≡ self.arrays }
        ensures custom { metadata_of result.1 ≡ self.custom }
        ensures few { length self.custom ≤ 1048576 }
    {
        let RecordBatchT {
            height: _,
            schema: _,
            arrays,
            custom_metadata,
        } = self;
        (arrays, custom_metadata)
    }

    /// The schema and the columns, in order.
    pub fn into_schema_and_arrays(self) -> (ArrowSchemaRef, Vec<Array>)
        ensures schema { rc_value result.0 ≡ self.schema }
        ensures arrays { all_parts_of result.1.items ≡ self.arrays }
    {
        let RecordBatchT {
            height: _,
            schema,
            arrays,
            custom_metadata: _,
        } = self;
        (schema, arrays)
    }

    /// A second owner of the same columns.
    pub fn try_clone(&self, alloc: Global) -> Result<RecordBatch, AllocError>
        ensures { IfOk result (λ b. b ≡ self.now) }
    {
        Ok(RecordBatchT {
            height: self.height,
            schema: self.schema.clone()?,
            arrays: clone_each(alloc, self.arrays.as_slice())?,
            custom_metadata: copy_if_any(alloc, &self.custom_metadata)?,
        })
    }
}

impl From<RecordBatch> for Vec<Array> {
    ghost use Rattle.std.specs.Prelude.{◌≡◌};
    ghost use Rattle.arrow_arrays.specs.PartsOf.{all_parts_of};

    ghost from_gives = { λ batch arrays. all_parts_of arrays.items ≡ batch.arrays };

    fn from(batch: RecordBatch) -> Vec<Array> {
        batch.into_arrays()
    }
}
