//! How the values of a dictionary stand to those that are held under its id: by the rows of all parts, one after another.
ghost use Rattle.std.specs.Prelude.{◌≡◌, ◌≢◌, ◌↔◌, ◌++◌, length, take, slice_index_or, IfSome, IfNone, IsTrue, Some, true};
ghost use Rattle.std.specs.List.{sum};
ghost use Rattle.arrow_types.specs.KindOf.{kind_of};
ghost use Rattle.arrow_arrays.specs.Heads.{each_of, values_kind};
ghost use Rattle.arrow_arrays.specs.Parts.{cells_in, kinds_each, rows_each};
ghost use Rattle.arrow_arrays.specs.PartsOf.{parts_of, forest_of};
ghost use Rattle.ipc_dictionaries.specs.Standing.{all_cells, cells_from, IsPlace, standing, by_cells, allowed, delta_start};

use arrow_arrays::{Array, are_of_type};
use arrow_types::ArrowDataType;
use same_rows::have_same_rows;

/// How values stand to those that are held under their id.
#[derive(Clone, Copy)]
pub enum Standing {
    /// None are held.
    Absent,
    /// The same are held.
    Same,
    /// So many are held, and these begin with them.
    Longer(u128),
    /// Others are held, or of another type.
    Other,
}

/// A part, and a row of it.
#[derive(Clone, Copy)]
pub(crate) struct Place {
    part: usize,
    row: usize,
}

/// The place behind an array's rows, where they are those that stand from a place on.
fn place_behind(array: &Array, parts: &[Array], from: Place) -> Option<Place>
    requires { IsPlace parts.now from }
    ensures behind { IfSome result (λ to. (cells_from parts.now from ≡ cells_in (parts_of array.now) ++ cells_from parts.now to) × IsPlace parts.now to) }
    ensures other { IfNone result (take (length (cells_in (parts_of array.now))) (cells_from parts.now from) ≢ cells_in (parts_of array.now)) }
{
    let rows = array.len();
    if rows == 0 {
        return Some(from);
    }
    let mut row = 0;
    let mut start = from.row;
    for i in from.part..parts.len() {
        let part = &parts[i];
        let others = part.len();
        let count = (rows - row).min(others - start);
        if !have_same_rows(array, row, count, part, start, count) {
            return None;
        }
        row += count;
        if row == rows {
            return Some(Place {
                part: i,
                row: start + count,
            });
        }
        start = 0;
    }
    None
}

/// Whether the rows of some parts, one after another, begin those of others.
fn begin(held: &[Array], parts: &[Array]) -> bool
    ensures { IsTrue result ↔ (take (length (all_cells held.now)) (all_cells parts.now) ≡ all_cells held.now) }
{
    let mut at = Place { part: 0, row: 0 };
    for part in held {
        match place_behind(part, parts, at) {
            Some(next) => at = next,
            None => return false,
        }
    }
    true
}

/// How many rows the parts have.
pub(crate) fn rows_of(parts: &[Array]) -> u128
    ensures rows { result ≡ sum (rows_each (forest_of parts.now)) }
    ensures cells { result ≡ length (all_cells parts.now) }
{
    let mut rows: u128 = 0;
    for part in parts {
        rows += part.len() as u128;
    }
    rows
}

/// How the rows of some parts stand to those that are held.
fn by_rows(held: &[Array], parts: &[Array]) -> Standing
    ensures { result ≡ by_cells (all_cells held.now) (all_cells parts.now) }
{
    if !begin(held, parts) {
        return Standing::Other;
    }
    let count = rows_of(held);
    if count < rows_of(parts) {
        Standing::Longer(count)
    } else {
        Standing::Same
    }
}

/// Whether there is a part, and each is of the type of a dictionary's values; of nulls, where the type is no dictionary's.
fn are_values(dtype: &ArrowDataType, parts: &[Array]) -> bool
    ensures { result ≡ each_of (values_kind (kind_of dtype.now)) (kinds_each (forest_of parts.now)) }
{
    match dtype {
        ArrowDataType::Dictionary(_, values, _) => are_of_type(values, parts),
        ArrowDataType::Extension(extension) => are_values(&extension.inner, parts),
        _ => are_of_type(&ArrowDataType::Null, parts),
    }
}

/// How the parts of the values of a dictionary of a type stand to those that are held.
pub(crate) fn standing_to(held: &[Array], dtype: &ArrowDataType, parts: &[Array]) -> Standing
    ensures { result ≡ standing (Some (forest_of held.now)) (values_kind (kind_of dtype.now)) (forest_of parts.now) }
{
    if !are_values(dtype, held) {
        return Standing::Other;
    }
    by_rows(held, parts)
}

/// Whether values that stand so are put under the id: `None` where they may not be.
pub(crate) fn allowed(is_fixed: bool, deltas: bool, standing: Standing) -> Option<bool>
    ensures { result ≡ allowed is_fixed deltas standing }
{
    match standing {
        Standing::Absent => Some(true),
        Standing::Same => Some(false),
        Standing::Longer(_) if deltas => Some(true),
        _ if is_fixed => None,
        _ => Some(true),
    }
}

/// From which row on the values are new, where they are sent as a delta.
pub(crate) fn delta_start(deltas: bool, standing: Standing) -> Option<u128>
    ensures { result ≡ delta_start deltas standing }
{
    match standing {
        Standing::Longer(held) if deltas => Some(held),
        _ => None,
    }
}
