//! Views of the columns of a record batch (Arrow Columnar Format, "RecordBatch message").
ghost use Rattle.std.specs.Prelude.{◌≡◌, ◌<◌, IfErr, IfOk, length, slice_get, true};
ghost use Rattle.arrow_spec.specs.Faults.{counts_faults, top_node_faults};
ghost use Rattle.arrow_types.specs.KindOf.{kind_of};
ghost use Rattle.arrow_types.specs.Schemas.{fields_in};
ghost use Rattle.ipc_read.specs.Batches.{schema_fields, IsFieldAt};
ghost use Rattle.ipc_read.specs.Held.{column_kind};
ghost use Rattle.ipc_fields.specs.Causes.{IsOfBytes};
ghost use Rattle.ipc_view.specs.Answers.{Answers};
ghost use Rattle.ipc_view.specs.Batches.{ColumnSeen, ColumnsSeen};
ghost use Rattle.ipc_view.specs.Built.{batch_of, place_of};
ghost use Rattle.ipc_view.specs.Dictionaries.{shown_in};
ghost use Rattle.ipc_view.specs.Lent.{AreLentOf, HoldsLent, IsLentOf};
ghost use Rattle.view_types.specs.Views.{views};
ghost use Rattle.ipc_view.specs.Nested.{IsPlace, are_shown, is_shown};

use crate::batch::{ArrayPlace, BatchTables};
use crate::tables::{is_negative, magnitude};
use arrow_spec::{IpcError, OutOfSpecKind};
use arrow_types::{ArrowDataType, ArrowSchema, Field};
use ipc_fields::IpcField;
use ipc_fields::uses::{fields_at, id_at};
use view_types::ArrayView;

/// The field at a place.
pub(crate) fn field_at(schema: &ArrowSchema, i: usize) -> &Field
    requires within { i < length schema.now }
    ensures { IsFieldAt schema.now i result.now }
{
    match schema.get_at_index(i) {
        Some((_, field)) => field,
        None => unreachable!(),
    }
}

impl<'h, 'a> BatchTables<'h, 'a> {
    /// Whether a column's node has exactly the batch's rows; one below 0 is told where it is read.
    fn check_top(&self, place: ArrayPlace, rows: usize) -> Result<(), IpcError>
        ensures gives { Answers result (top_node_faults (slice_get self.now.nodes.now place.node) rows) (λ _. Unit {0}) }
        ensures cause { IfErr result IsOfBytes }
    {
        match self.nodes.get(place.node) {
            Some(node) => {
                if !is_negative(node.length) && magnitude(node.length) != rows {
                    return Err(IpcError::OutOfSpec(OutOfSpecKind::NodeLength));
                }
                Ok(())
            }
            None => Ok(()),
        }
    }

    /// Whether the nodes and the buffers before a place are all there.
    fn check_counts(&self, place: ArrayPlace) -> Result<(), IpcError>
        ensures gives { Answers result (counts_faults (batch_of self.now) (place_of place)) (λ _. Unit {0}) }
        ensures cause { IfErr result IsOfBytes }
    {
        if place.node > self.nodes.len() || place.buffer > self.buffers.len() as u128 {
            return Err(IpcError::OutOfSpec(OutOfSpecKind::ExpectedBuffer));
        }
        Ok(())
    }

    /// The view of a column, and the place behind it.
    fn column(
        &self,
        place: ArrayPlace,
        dtype: &ArrowDataType,
        id: Option<i64>,
        fields: &[IpcField],
        rows: usize,
    ) -> Result<(ArrayView<'a>, ArrayPlace), IpcError>
        requires place { IsPlace self.now place }
        requires shown { is_shown (kind_of dtype.now) ≡ true }
        ensures seen { ColumnSeen self.now result (column_kind dtype.now id fields.now) place rows }
        ensures place { IfOk result (λ x. IsPlace self.now x.1) }
        ensures lent { HoldsLent self.now.input.now (shown_in self.now.dictionaries.now) → IfOk result (λ x. IsLentOf self.now.input.now x.0) }
        ensures cause { IfErr result IsOfBytes }
    {
        self.check_top(place, rows)?;
        let (view, next) = self.view(place, dtype, id, fields, rows)?;
        self.check_counts(next)?;
        Ok((view, next))
    }

    /// The views of the columns of a schema, one behind another.
    pub(crate) fn columns(
        &self,
        schema: &ArrowSchema,
        fields: &[IpcField],
        rows: usize,
    ) -> Result<Vec<ArrayView<'a>>, IpcError>
        requires shown { are_shown (fields_in schema.now) ≡ true }
        ensures seen { ColumnsSeen self.now result (schema_fields schema.now fields.now) rows }
        ensures count { IfOk result (λ v. length v.items ≡ length schema.now) }
        ensures lent { HoldsLent self.now.input.now (shown_in self.now.dictionaries.now) → IfOk result (λ v. AreLentOf self.now.input.now (views v.items)) }
        ensures cause { IfErr result IsOfBytes }
    {
        let mut views = Vec::new(self.alloc);
        let mut next = ArrayPlace {
            node: 0,
            buffer: 0,
            view: 0,
        };
        for i in 0..schema.len() {
            let field = field_at(schema, i);
            let (view, behind) = self.column(
                next,
                &field.dtype,
                id_at(fields, i),
                fields_at(fields, i),
                rows,
            )?;
            views.push(view)?;
            next = behind;
        }
        Ok(views)
    }
}
