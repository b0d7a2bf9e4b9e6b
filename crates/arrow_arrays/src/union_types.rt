//! Which child stands under a type of a union (Arrow Columnar Format, "Union Layout").
ghost use Rattle.std.specs.Prelude.{◌≡◌, ◌<◌, length, pos, slice_index_or};
ghost use Rattle.arrow_spec.specs.Arrays.{id_place, or_0};
ghost use Rattle.arrow_types.specs.KindOf.{kind_of, ids_of};
ghost use Rattle.arrow_arrays.specs.Heads.{ids_in};

use arrow_types::ArrowDataType;

/// How many ids there are: one for each child where none are stated.
fn count_ids(ids: &Option<Vec<i32>>, children: usize) -> usize
    ensures { result ≡ length (ids_of ids.now children) }
{
    match ids {
        None => children,
        Some(ids) => ids.len(),
    }
}

/// The i-th id, which is i where none are stated.
fn id_at(ids: &Option<Vec<i32>>, children: usize, i: usize) -> i128
    requires { i < length (ids_of ids.now children) }
    ensures { result ≡ slice_index_or (ids_of ids.now children) i (pos 0) }
{
    match ids {
        None => i as i128,
        Some(ids) => ids[i] as i128,
    }
}

/// Where a type stands among the ids.
fn place_of_id(ids: &Option<Vec<i32>>, children: usize, id: i8) -> Option<usize>
    ensures { result ≡ id_place (ids_of ids.now children) id }
{
    for i in 0..count_ids(ids, children) {
        if id_at(ids, children, i) == id as i128 {
            return Some(i);
        }
    }
    None
}

/// The number of the child under a type.
pub(crate) fn child_of_type(dtype: &ArrowDataType, id: i8) -> Option<usize>
    ensures { result ≡ id_place (ids_in (kind_of dtype.now)) id }
{
    match dtype {
        ArrowDataType::Union(u) => place_of_id(&u.ids, u.fields.len(), id),
        ArrowDataType::Extension(extension) => child_of_type(&extension.inner, id),
        _ => None,
    }
}

/// The same, the first where no child is under the type.
pub(crate) fn child_or_first(dtype: &ArrowDataType, id: i8) -> usize
    ensures { result ≡ or_0 (id_place (ids_in (kind_of dtype.now)) id) }
{
    match child_of_type(dtype, id) {
        None => 0,
        Some(child) => child,
    }
}
