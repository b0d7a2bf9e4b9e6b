//! The parts of views of lists and of maps (Arrow Columnar Format, "Variable-size List Layout", "Map Layout").
ghost use Rattle.std.specs.Prelude.{◌≡◌, ◌+◌, ◌*◌, ◌^◌, ◌≤◌, ◌<◌, IfErr, IfOk, Some, false, slice_get};
ghost use Rattle.view_types.specs.Ranges.{Lies};
ghost use Rattle.view_types.specs.Tops.{top_in};
ghost use Rattle.view_types.specs.Views.{offset_bytes, offset_in, offsets_by};
ghost use Rattle.ipc_fields.specs.Causes.{IsOfBytes};
ghost use Rattle.ipc_view.specs.Answers.{Answers};
ghost use Rattle.ipc_view.specs.Built.{batch_of, place_of};
ghost use Rattle.ipc_view.specs.Lists.{IsListTop, ShowsLists, are_bad, list_buffers_faults, list_causes, list_top_faults};

use crate::batch::{ArrayPlace, BatchTables};
use crate::leaves::{NOTHING, offset_size};
use crate::tests::offsets_fit;
use arrow_spec::{FieldNode, IpcError, OutOfSpecKind};
use view_types::{Layout, ViewParts, offset_at, part_of};

/// Whether the offsets of lists rise within so many rows.
fn check_lists(parts: &ViewParts<'_>, is_large: bool, most: usize) -> Result<(), IpcError>
    requires offsets { Lies parts.now.input.now parts.now.first }
    requires room { offset_bytes is_large * (parts.now.rows + 1) ≤ parts.now.first.length }
    ensures gives { Answers result (list_causes (top_in parts.now) is_large most) (λ _. are_bad (top_in parts.now) is_large most ≡ false) }
    ensures cause { IfErr result IsOfBytes }
{
    let offsets = part_of(parts.input, parts.first);
    if !offsets_fit(offsets, parts.rows, is_large, parts.is_big_endian, most) {
        return Err(IpcError::OutOfSpec(OutOfSpecKind::InvalidOffsets));
    }
    Ok(())
}

/// Where the last list ends.
fn last_offset(parts: &ViewParts<'_>, is_large: bool) -> usize
    requires offsets { Lies parts.now.input.now parts.now.first }
    requires room { offset_bytes is_large * (parts.now.rows + 1) ≤ parts.now.first.length }
    ensures { result ≡ offset_in (top_in parts.now) is_large parts.now.rows }
{
    let offsets = part_of(parts.input, parts.first);
    offset_at(offsets, parts.rows, is_large, parts.is_big_endian)
}

impl<'h, 'a> BatchTables<'h, 'a> {
    /// The ranges of lists, which have rows.
    fn list_ranges(
        &self,
        place: ArrayPlace,
        node: FieldNode,
        is_large: bool,
        rows: usize,
    ) -> Result<ViewParts<'a>, IpcError>
        requires node { slice_get self.now.nodes.now place.node ≡ Some node }
        requires bound { place.buffer ≤ 2 ^ 64 * place.node }
        requires more { rows < 2 ^ 63 }
        ensures gives { Answers result (list_buffers_faults (batch_of self.now) is_large (place_of place) rows) (λ v. ShowsLists (batch_of self.now) is_large (place_of place) rows (top_in v)) }
        ensures input { IfOk result (λ v. v.input.now ≡ self.now.input.now) }
        ensures cause { IfErr result IsOfBytes }
    {
        let validity = self.validity(place, node, rows)?;
        let first = self.numbers(place.buffer + 1, offset_size(is_large), rows + 1)?;
        Ok(self.nested_parts(Layout::Lists { is_large }, rows, validity, first))
    }

    /// The parts of lists, their items aside, and where the last list ends.
    pub(crate) fn list_parts(
        &self,
        place: ArrayPlace,
        node: FieldNode,
        is_large: bool,
        rows: usize,
    ) -> Result<(ViewParts<'a>, usize), IpcError>
        requires node { slice_get self.now.nodes.now place.node ≡ Some node }
        requires bound { place.buffer ≤ 2 ^ 64 * place.node }
        requires more { rows < 2 ^ 63 }
        ensures gives { Answers result (list_top_faults (batch_of self.now) (offsets_by is_large) (place_of place) rows) (λ r. IsListTop (batch_of self.now) is_large (place_of place) rows (top_in r.0) r.1) }
        ensures input { IfOk result (λ r. r.0.input.now ≡ self.now.input.now) }
        ensures cause { IfErr result IsOfBytes }
    {
        if rows == 0 {
            let parts = self.nested_parts(Layout::Lists { is_large }, 0, None, NOTHING);
            return Ok((parts, 0));
        }
        let parts = self.list_ranges(place, node, is_large, rows)?;
        check_lists(&parts, is_large, self.end_of(place.node + 1))?;
        let last = last_offset(&parts, is_large);
        Ok((parts, last))
    }
}
