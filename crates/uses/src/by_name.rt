//! Columns that are made of rows, and found by their names.
use arrow_ipc::array::{Array, PrimitiveArray, optional_texts};
use arrow_ipc::datatypes::{ArrowDataType, ArrowSchema, ArrowSchemaRef, Field};
use arrow_ipc::io::ipc::IpcError;
use arrow_ipc::record_batch::{RecordBatch, column};
use std::alloc::{AllocError, Global};
use std::rc::Rc;

/// The fields of a city and of how many people live there.
fn schema(alloc: Global) -> Result<ArrowSchemaRef, AllocError> {
    let city = String::from_str(alloc, "city")?;
    let city = Field::new(alloc, city, ArrowDataType::Utf8, true);
    let people = String::from_str(alloc, "people")?;
    let people = Field::new(alloc, people, ArrowDataType::Int64, false);
    let schema = ArrowSchema::from_fields(alloc, vec![in alloc; city, people]?)?;
    Ok(Rc::new(alloc, schema)?)
}

/// Cities, of which one is not known, and how many people live there.
pub(crate) fn cities(alloc: Global) -> Result<RecordBatch, IpcError> {
    let names = optional_texts::<i32>(alloc, &[Some("Ghent"), None, Some("Turin")])?;
    let people = PrimitiveArray::from_slice(alloc, &[265_000i64, 1_200, 851_000])?;
    let columns = vec![in alloc; Array::Utf8(names), Array::Int64(people)]?;
    Ok(RecordBatch::try_new(3, schema(alloc)?, columns)?)
}

/// Prints the cities with how many people live there.
pub(crate) fn show_cities(rt: &HostRuntime, batch: &RecordBatch) -> Result<(), IpcError> {
    let Some(Array::Utf8(cities)) = column(batch, "city") else {
        return Err(IpcError::SchemaMismatch);
    };
    let Some(Array::Int64(people)) = column(batch, "people") else {
        return Err(IpcError::SchemaMismatch);
    };
    for row in 0..cities.len() {
        let city = cities.text(row).unwrap_or("elsewhere");
        let count = people.get(row).unwrap_or(0);
        let _ = println!(rt; "{city}: {count}");
    }
    Ok(())
}
