//! Record batches with IPC fields.
ghost use Rattle.std.specs.Prelude.{◌≡◌, ◌↔◌, map, IfOk, IsTrue};
ghost use Rattle.std.specs.Option.{option_map};
ghost use Rattle.ipc_fields.specs.IpcFields.{tree_of};
ghost use Rattle.ipc_write.specs.Records.{batch_of, fields_of};

use arrow_arrays::RecordBatch;
use ipc_fields::IpcField;
use std::alloc::{AllocError, Global};

/// A batch and its IPC fields, both owned or both borrowed.
#[derive(Drop)]
enum Held<'a> {
    Owned(RecordBatch, Option<Vec<IpcField>>),
    Borrowed(&'a RecordBatch, Option<&'a [IpcField]>),
}

/// A batch of arrays that may have an IPC field for each column (Schema.fbs, DictionaryEncoding). It owns or borrows them.
#[derive(Drop)]
pub struct Record<'a> {
    held: Held<'a>,
}

/// The IPC fields, where there are any.
fn lent_fields(fields: &Option<Vec<IpcField>>) -> Option<&[IpcField]>
    ensures { option_map (λ s. map tree_of s.now) result ≡ option_map (λ v. map tree_of v.items) fields.now }
{
    match fields {
        None => None,
        Some(owned) => Some(owned.as_slice()),
    }
}

/// Copies of the IPC fields.
fn clone_fields(alloc: Global, fields: &[IpcField]) -> Result<Vec<IpcField>, AllocError>
    ensures { IfOk result (λ v. map tree_of v.items ≡ map tree_of fields.now) }
{
    let mut clones = Vec::new(alloc);
    for field in fields {
        clones.push(field.try_clone(alloc)?)?;
    }
    Ok(clones)
}

/// Copies of the IPC fields, where there are any.
fn owned_fields(
    alloc: Global,
    fields: Option<&[IpcField]>,
) -> Result<Option<Vec<IpcField>>, AllocError>
    ensures { IfOk result (λ o. option_map (λ v. map tree_of v.items) o ≡ option_map (λ s. map tree_of s.now) fields.entry) }
{
    match fields {
        None => Ok(None),
        Some(lent) => Ok(Some(clone_fields(alloc, lent)?)),
    }
}

fn are_same_fields(a: &[IpcField], b: &[IpcField]) -> bool
    ensures { IsTrue result ↔ (map tree_of a.now ≡ map tree_of b.now) }
{
    a == b
}

fn may_be_same_fields(a: Option<&[IpcField]>, b: Option<&[IpcField]>) -> bool
    ensures { IsTrue result ↔ (option_map (λ s. map tree_of s.now) a.entry ≡ option_map (λ s. map tree_of s.now) b.entry) }
{
    match a {
        None => b.is_none(),
        Some(x) => match b {
            None => false,
            Some(y) => are_same_fields(x, y),
        },
    }
}

impl<'a> Record<'a> {
    /// A record that owns a batch and its IPC fields.
    pub fn from_owned(batch: RecordBatch, fields: Option<Vec<IpcField>>) -> Record<'a>
        ensures batch { batch_of result ≡ batch }
        ensures fields { fields_of result ≡ option_map (λ v. map tree_of v.items) fields }
    {
        Record {
            held: Held::Owned(batch, fields),
        }
    }

    /// A record that borrows a batch and its IPC fields.
    pub fn from_borrowed(batch: &'a RecordBatch, fields: Option<&'a [IpcField]>) -> Record<'a>
        ensures batch { batch_of result ≡ batch.now }
        ensures fields { fields_of result ≡ option_map (λ s. map tree_of s.now) fields.entry }
    {
        Record {
            held: Held::Borrowed(batch, fields),
        }
    }

    /// The IPC fields, where there are any.
    pub fn fields(&self) -> Option<&[IpcField]>
        ensures { option_map (λ s. map tree_of s.now) result ≡ fields_of self.now }
    {
        match &self.held {
            Held::Owned(_, fields) => lent_fields(fields),
            Held::Borrowed(_, fields) => *fields,
        }
    }

    /// The batch.
    pub fn columns(&self) -> &RecordBatch
        ensures { result.now ≡ batch_of self.now }
    {
        match &self.held {
            Held::Owned(batch, _) => batch,
            Held::Borrowed(batch, _) => *batch,
        }
    }

    /// A record of the same: what is owned is copied, what is borrowed is borrowed again.
    pub fn try_clone(&self, alloc: Global) -> Result<Record<'a>, AllocError>
        ensures batch { IfOk result (λ r. batch_of r ≡ batch_of self.now) }
        ensures fields { IfOk result (λ r. fields_of r ≡ fields_of self.now) }
    {
        match &self.held {
            Held::Owned(batch, fields) => {
                let batch = batch.try_clone(alloc)?;
                let fields = owned_fields(alloc, lent_fields(fields))?;
                Ok(Record::from_owned(batch, fields))
            }
            Held::Borrowed(batch, fields) => Ok(Record::from_borrowed(*batch, *fields)),
        }
    }
}

impl PartialEq for Record<'_> {
    ghost use Rattle.std.specs.Prelude.{◌≡◌, ◌↔◌, IsTrue};
    ghost use Rattle.std.specs.Ordering.{on};
    ghost use Rattle.std.specs.Cmp.{on_per, partial_equiv_from_equiv};
    ghost use Rattle.arrow_arrays.specs.SameBatches.{SameBatch};
    ghost use Rattle.ipc_write.specs.Records.{batch_of, fields_of, whole_of};
    ghost use Rattle.ipc_write.specs.RecordCode.{whole_eq, whole_eq_equiv};

    ghost eq = { on whole_of whole_eq };

    ghost laws = { on_per whole_of (partial_equiv_from_equiv whole_eq_equiv) };

    /// Whether the batches hold the same, rows, schemas and cells, and the IPC fields are the same.
    fn eq(&self, other: &Self) -> bool
        ensures eq { result ≡ whole_eq (whole_of self.now) (whole_of other.now) }
        ensures same { IsTrue result ↔ (SameBatch (batch_of self.now) (batch_of other.now) × (fields_of self.now ≡ fields_of other.now)) }
    {
        *self.columns() == *other.columns() && may_be_same_fields(self.fields(), other.fields())
    }
}
