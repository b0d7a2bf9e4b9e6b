//! Records, which lend a batch and the ids of its fields or own them.
use arrow_arrays::RecordBatch;
use arrow_types::ArrowSchema;
use ipc_fields::IpcField;
use ipc_write::Record;
use std::alloc::Global;
use std::rc::Rc;
use std::test::Fail;

/// A batch of three rows without columns.
fn three_rows(alloc: Global) -> Result<RecordBatch, Fail> {
    let schema = Rc::new(alloc, ArrowSchema::new(alloc))?;
    Ok(RecordBatch::try_new(3, schema, Vec::new(alloc))?)
}

#[test]
fn a_record_gives_back_what_it_borrows(rt: HostRuntime) -> Result<(), Fail> {
    let batch = three_rows(rt.alloc())?;
    let fields = vec![in rt.alloc(); IpcField::new(rt.alloc())]?;
    let record = Record::from_borrowed(&batch, Some(fields.as_slice()));
    assert!(rt; matches!(record.fields(), Some([_])) && record.columns().height() == 3);
    assert!(rt; record.try_clone(rt.alloc())? == record);
    Ok(())
}

#[test]
fn a_record_without_fields_is_another(rt: HostRuntime) -> Result<(), Fail> {
    let batch = three_rows(rt.alloc())?;
    let record = Record::from_owned(batch.try_clone(rt.alloc())?, None);
    assert!(rt; record.fields().is_none());
    assert!(rt; record == Record::from_borrowed(&batch, None));
    assert!(rt; record != Record::from_borrowed(&batch, Some(&[])));
    Ok(())
}
