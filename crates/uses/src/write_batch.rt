//! A record batch that is made and written.
use arrow_ipc::array::{Array, PrimitiveArray};
use arrow_ipc::datatypes::{ArrowDataType, ArrowSchema, ArrowSchemaRef, Field};
use arrow_ipc::io::ipc::IpcError;
use arrow_ipc::io::ipc::write::{EncodedData, WriteOptions, encode_record_batch, message_to_bytes};
use arrow_ipc::record_batch::RecordBatch;
use std::alloc::{AllocError, Global};
use std::rc::Rc;

/// The schema of one column without nulls.
fn schema_of(
    alloc: Global,
    name: &str,
    dtype: ArrowDataType,
) -> Result<ArrowSchemaRef, AllocError> {
    let name = String::from_str(alloc, name)?;
    let field = Field::new(alloc, name, dtype, false);
    let schema = ArrowSchema::from_fields(alloc, vec![in alloc; field]?)?;
    Ok(Rc::new(alloc, schema)?)
}

/// One column without nulls as a batch.
pub(crate) fn batch_of_column(
    alloc: Global,
    name: &str,
    column: Array,
) -> Result<RecordBatch, IpcError> {
    let schema = schema_of(alloc, name, column.dtype().try_clone(alloc)?)?;
    let rows = column.len();
    let columns = vec![in alloc; column]?;
    Ok(RecordBatch::try_new(rows, schema, columns)?)
}

/// One column of numbers, none of them null, as a batch.
pub(crate) fn batch_of(alloc: Global, numbers: &[i32]) -> Result<RecordBatch, IpcError> {
    let column = PrimitiveArray::from_slice(alloc, numbers)?;
    batch_of_column(alloc, "numbers", Array::Int32(column))
}

/// The bytes of its message, with prefix and padding.
pub(crate) fn message_of(alloc: Global, numbers: &[i32]) -> Result<Vec<u8>, IpcError> {
    let batch = batch_of(alloc, numbers)?;
    let mut encoded = EncodedData::new(alloc);
    encode_record_batch(alloc, &batch, &WriteOptions::default(), &mut encoded)?;
    message_to_bytes(alloc, &encoded.ipc_message, &encoded.arrow_data)
}
