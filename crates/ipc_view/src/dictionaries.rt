//! Views of dictionaries: keys of rows of the parts that are held under an id (Arrow Columnar Format, "Dictionary-encoded Layout").
ghost use Rattle.std.specs.Prelude.{◌≡◌, ◌+◌, ◌*◌, ◌^◌, ◌≤◌, ◌<◌, Bool, IfErr, IfOk, IfSome, Some, false, not, slice_get};
ghost use Rattle.std.specs.Int.{byte_len};
ghost use Rattle.std.specs.List.{sum_by};
ghost use Rattle.arrow_spec.specs.Arrays.{integer_width};
ghost use Rattle.arrow_spec.specs.Faults.{some_row};
ghost use Rattle.arrow_spec.specs.Kinds.{Kind, dictionary};
ghost use Rattle.arrow_spec.specs.Readings.{is_absent};
ghost use Rattle.arrow_spec.specs.declared.error.IpcError.TheVariants.{Memory};
ghost use Rattle.arrow_types.specs.KindOf.{kind_of};
ghost use Rattle.ipc_fields.specs.Uses.{id_under};
ghost use Rattle.ipc_read_laws.specs.Laws.{key_refusal};
ghost use Rattle.view_types.specs.Sound.{Values};
ghost use Rattle.view_types.specs.Tops.{top_in};
ghost use Rattle.view_types.specs.Views.{number_in, rows_of};
ghost use Rattle.ipc_fields.specs.Causes.{IsOfBytes};
ghost use Rattle.ipc_view.specs.Answers.{Answers};
ghost use Rattle.ipc_view.specs.Built.{batch_of, place_of, HasBitsIn};
ghost use Rattle.ipc_view.specs.Dictionaries.{is_bad_key, is_no_key, key_causes, key_top_faults, key_type, keys_top, parts_or_none, shown_in, IsKeysTop};
ghost use Rattle.ipc_view.specs.Lent.{HoldsLent, IsLentOf};
ghost use Rattle.ipc_view.specs.Nested.{IsPlace, Seen};

use crate::batch::{ArrayPlace, BatchTables};
use crate::tables::inside;
use arrow_spec::{FieldNode, IntegerType, IpcError, OutOfSpecKind};
use arrow_types::ArrowDataType;
use std::collections::BTreeMap;
use view_types::{ArrayView, Layout, ViewParts, clone_each, integer_at, width_of};

/// The values of dictionaries whose bytes are lent, by their ids: the parts in which they were read, in order.
pub type DictionaryViews<'a> = BTreeMap<i64, Vec<ArrayView<'a>>>;

/// The type of a dictionary's keys, extensions looked through; none of other types.
pub(crate) fn key_type(dtype: &ArrowDataType) -> Option<IntegerType>
    ensures { result ≡ key_type (kind_of dtype.now) }
{
    match dtype {
        ArrowDataType::Dictionary(index, _, _) => Some(*index),
        ArrowDataType::Extension(extension) => key_type(&extension.inner),
        _ => None,
    }
}

/// The id of a dictionary, 0 where none is given.
pub(crate) fn id_or_zero(id: Option<i64>) -> i64
    ensures { result ≡ id_under id }
{
    match id {
        Some(id) => id,
        None => 0,
    }
}

/// How many rows some views have together.
fn rows_among(parts: &[ArrayView<'_>]) -> u128
    ensures { result ≡ sum_by rows_of parts.now }
{
    let mut rows = 0_u128;
    for part in parts {
        rows += part.len() as u128;
    }
    rows
}

/// How keys are refused.
fn key_refusal(is_absent: bool, id: i64) -> IpcError
    ensures { result ≡ key_refusal is_absent id }
{
    if is_absent {
        return IpcError::OutOfSpec(OutOfSpecKind::InvalidId { requested_id: id });
    }
    IpcError::OutOfSpec(OutOfSpecKind::InvalidKey)
}

/// Whether a row's key is one of so many rows.
fn is_key(parts: &ViewParts<'_>, keys: IntegerType, row: usize, held: u128) -> bool
    requires values { Values (top_in parts.now) (byte_len (integer_width keys)) }
    requires row { row < parts.now.rows }
    ensures { result ≡ not (is_no_key held (number_in (top_in parts.now) keys row)) }
{
    let key = integer_at(parts.first_part(), keys, row, parts.is_big_endian);
    key >= 0 && (key as u128) < held
}

/// Whether the key of each row that is not null is one of so many rows.
fn keys_fit(parts: &ViewParts<'_>, keys: IntegerType, held: u128) -> bool
    requires values { Values (top_in parts.now) (byte_len (integer_width keys)) }
    requires bits { IfSome parts.now.validity (HasBitsIn parts.now.input.now parts.now.rows) }
    ensures { result ≡ not (some_row (is_bad_key (top_in parts.now) keys held) parts.now.rows) }
{
    for row in 0..parts.rows {
        if !parts.is_unset(row) && !is_key(parts, keys, row, held) {
            return false;
        }
    }
    true
}

/// Whether the keys lead to rows of the parts under an id, which have so many together.
fn check_keys(
    parts: &ViewParts<'_>,
    keys: IntegerType,
    held: u128,
    is_absent: bool,
    id: i64,
) -> Result<(), IpcError>
    requires values { Values (top_in parts.now) (byte_len (integer_width keys)) }
    requires bits { IfSome parts.now.validity (HasBitsIn parts.now.input.now parts.now.rows) }
    ensures gives { Answers result (key_causes (top_in parts.now) keys held is_absent id) (λ _. some_row (is_bad_key (top_in parts.now) keys held) parts.now.rows ≡ false) }
    ensures cause { IfErr result IsOfBytes }
{
    if !keys_fit(parts, keys, held) {
        return Err(key_refusal(is_absent, id));
    }
    Ok(())
}

/// The same ranges under the layout of keys.
fn as_keys(parts: ViewParts<'_>, keys: IntegerType) -> ViewParts<'_>
    ensures { top_in result ≡ keys_top (top_in parts.entry) keys }
{
    ViewParts {
        input: parts.input,
        is_big_endian: parts.is_big_endian,
        layout: Layout::Dictionary(keys),
        rows: parts.rows,
        ids: parts.ids,
        validity: parts.validity,
        first: parts.first,
        second: parts.second,
        buffers: parts.buffers,
    }
}

impl<'h, 'a> BatchTables<'h, 'a> {
    /// The parts under an id once more, none where none are held.
    fn parts_under(&self, id: i64) -> Result<Vec<ArrayView<'a>>, IpcError>
        ensures parts { IfOk result (λ v. v.items ≡ parts_or_none (shown_in self.now.dictionaries.now id)) }
        ensures memory { IfErr result (λ e. e ≡ Memory) }
    {
        match self.dictionaries.get(&id) {
            Some(parts) => Ok(clone_each(self.alloc, parts.as_slice())?),
            None => Ok(Vec::new(self.alloc)),
        }
    }

    /// Whether no parts are held under an id.
    fn is_absent(&self, id: i64) -> bool
        ensures { result ≡ is_absent (shown_in self.now.dictionaries.now id) }
    {
        !self.dictionaries.contains_key(&id)
    }

    /// The parts of keys of rows of the parts under an id, which have so many together.
    fn key_parts(
        &self,
        place: ArrayPlace,
        node: FieldNode,
        keys: IntegerType,
        held: u128,
        id: i64,
        rows: usize,
    ) -> Result<ViewParts<'a>, IpcError>
        requires node { slice_get self.now.nodes.now place.node ≡ Some node }
        requires bound { place.buffer ≤ 2 ^ 64 * place.node }
        ensures gives { Answers result (key_top_faults (batch_of self.now) keys held (is_absent (shown_in self.now.dictionaries.now id)) id (place_of place) rows) (λ v. IsKeysTop (batch_of self.now) keys held (place_of place) rows (top_in v)) }
        ensures input { IfOk result (λ v. v.input.now ≡ self.now.input.now) }
        ensures cause { IfErr result IsOfBytes }
    {
        if rows == 0 {
            return Ok(self.nothing(Layout::Dictionary(keys), 0));
        }
        let parts = self.fixed(place, node, Layout::Number(keys), width_of(keys), rows)?;
        check_keys(&parts, keys, held, self.is_absent(id), id)?;
        Ok(as_keys(parts, keys))
    }

    /// The view of a dictionary's keys of rows of the parts under an id, and the place behind it.
    pub(crate) fn keyed(
        &self,
        place: ArrayPlace,
        keys: IntegerType,
        id: i64,
        rows: usize,
    ) -> Result<(ArrayView<'a>, ArrayPlace), IpcError>
        requires place { IsPlace self.now place }
        ensures seen { (ordered : Bool) (k : Kind) → Seen self.now result (dictionary keys ordered id k) place rows }
        ensures place { IfOk result (λ x. IsPlace self.now x.1) }
        ensures lent { HoldsLent self.now.input.now (shown_in self.now.dictionaries.now) → IfOk result (λ x. IsLentOf self.now.input.now x.0) }
        ensures cause { IfErr result IsOfBytes }
    {
        let node = self.node(place, rows)?;
        let children = self.parts_under(id)?;
        let held = rows_among(children.as_slice());
        let parts = self.key_parts(place, node, keys, held, id, rows)?;
        let view = ArrayView::keyed(self.alloc, parts, children)?;
        Ok((view, inside(place, 2)))
    }
}
