//! A dictionary's keys, or its values, to nodes and buffers (Arrow Columnar Format, "Dictionary-encoded Layout").
ghost use Rattle.std.specs.Prelude.{◌≡◌, ◌%◌, ◌^◌, ◌<◌, length, map, pos, false, true, IfOk};
ghost use Rattle.arrow_spec.specs.Flat.{order_by};
ghost use Rattle.arrow_spec.specs.Sent.{body_of};
ghost use Rattle.arrow_arrays.specs.Heads.{indexed};
ghost use Rattle.arrow_arrays.specs.Parts.{nested, rows_in};
ghost use Rattle.arrow_arrays.specs.PartsOf.{parts_of};
ghost use Rattle.ipc_write_arrays.specs.Outputs.{MayHaveOrder};
ghost use Rattle.ipc_write_arrays.specs.Pieces.{IsMeant, pieces_in};
ghost use Rattle.ipc_write.specs.Additions.{Adds, dictionary_written, has_one, target};

use arrow_arrays::{Array, DictionaryArray};
use arrow_spec::{FieldNode, IpcBuffer, IpcError};
use ipc_write_arrays::write;

/// Adds the keys of a dictionary.
fn add_keys(
    array: &DictionaryArray,
    buffers: &mut Vec<IpcBuffer>,
    arrow_data: &mut Vec<u8>,
    nodes: &mut Vec<FieldNode>,
    variadic: &mut Vec<i64>,
    offset: &mut i64,
    is_little_endian: bool,
) -> Result<(), IpcError>
    requires start { offset.old ≡ pos (length arrow_data.old.items) }
    requires aligned { length arrow_data.old.items % 64 ≡ 0 }
    requires order { MayHaveOrder (nested (indexed array.now.head) array.now.children) is_little_endian }
    requires few { rows_in (nested (indexed array.now.head) array.now.children) < 2 ^ 63 }
    requires short { body_of (length arrow_data.old.items) (map length (pieces_in (order_by is_little_endian) (nested (indexed array.now.head) array.now.children))) < 2 ^ 63 }
    ensures adds { Adds result (order_by is_little_endian) (nested (indexed array.now.head) array.now.children) (target nodes.old.items buffers.old.items arrow_data.old.items variadic.old.items offset.old) (target nodes.new.items buffers.new.items arrow_data.new.items variadic.new.items offset.new) }
    ensures means { IfOk result (λ _. IsMeant (order_by is_little_endian) (nested (indexed array.now.head) array.now.children)) }
{
    let alloc = *arrow_data.allocator();
    let copy = array.try_clone(alloc)?;
    let whole = Array::Dictionary(copy);
    let done = write(
        &whole,
        buffers,
        arrow_data,
        nodes,
        variadic,
        offset,
        is_little_endian,
    );
    drop(whole);
    done
}

/// Adds an array, as [`write`].
fn add_values(
    array: &Array,
    buffers: &mut Vec<IpcBuffer>,
    arrow_data: &mut Vec<u8>,
    nodes: &mut Vec<FieldNode>,
    variadic: &mut Vec<i64>,
    offset: &mut i64,
    is_little_endian: bool,
) -> Result<(), IpcError>
    requires start { offset.old ≡ pos (length arrow_data.old.items) }
    requires aligned { length arrow_data.old.items % 64 ≡ 0 }
    requires order { MayHaveOrder (parts_of array.now) is_little_endian }
    requires few { rows_in (parts_of array.now) < 2 ^ 63 }
    requires short { body_of (length arrow_data.old.items) (map length (pieces_in (order_by is_little_endian) (parts_of array.now))) < 2 ^ 63 }
    ensures adds { Adds result (order_by is_little_endian) (parts_of array.now) (target nodes.old.items buffers.old.items arrow_data.old.items variadic.old.items offset.old) (target nodes.new.items buffers.new.items arrow_data.new.items variadic.new.items offset.new) }
    ensures means { IfOk result (λ _. IsMeant (order_by is_little_endian) (parts_of array.now)) }
{
    write(
        array,
        buffers,
        arrow_data,
        nodes,
        variadic,
        offset,
        is_little_endian,
    )
}

/// The one part of a dictionary's values.
fn only_part(array: &DictionaryArray) -> &Array
    requires { has_one array.now.children ≡ true }
    ensures { parts_of result.now ≡ dictionary_written false (nested (indexed array.now.head) array.now.children) }
{
    match array.parts().first() {
        Some(values) => values,
        None => unreachable!(),
    }
}

/// Adds the keys of a dictionary as [`write`] adds them, or the values of one that has them in one part, and answers how many they are.
///
/// # Errors
///
/// `Memory`, which leaves all as it was.
pub fn write_dictionary(
    array: &DictionaryArray,
    buffers: &mut Vec<IpcBuffer>,
    arrow_data: &mut Vec<u8>,
    nodes: &mut Vec<FieldNode>,
    variadic: &mut Vec<i64>,
    offset: &mut i64,
    is_little_endian: bool,
    write_keys: bool,
) -> Result<usize, IpcError>
    requires start { offset.old ≡ pos (length arrow_data.old.items) }
    requires aligned { length arrow_data.old.items % 64 ≡ 0 }
    requires one { write_keys ≡ false → has_one array.now.children ≡ true }
    requires order { MayHaveOrder (nested (indexed array.now.head) array.now.children) is_little_endian }
    requires few { rows_in (dictionary_written write_keys (nested (indexed array.now.head) array.now.children)) < 2 ^ 63 }
    requires short { body_of (length arrow_data.old.items) (map length (pieces_in (order_by is_little_endian) (dictionary_written write_keys (nested (indexed array.now.head) array.now.children)))) < 2 ^ 63 }
    ensures count { IfOk result (λ n. n ≡ rows_in (dictionary_written write_keys (nested (indexed array.now.head) array.now.children))) }
    ensures adds { Adds result (order_by is_little_endian) (dictionary_written write_keys (nested (indexed array.now.head) array.now.children)) (target nodes.old.items buffers.old.items arrow_data.old.items variadic.old.items offset.old) (target nodes.new.items buffers.new.items arrow_data.new.items variadic.new.items offset.new) }
    // What was written means the cells of the array that was written, under any ids of dictionaries under which their values were read.
    ensures means { IfOk result (λ _. IsMeant (order_by is_little_endian) (dictionary_written write_keys (nested (indexed array.now.head) array.now.children))) }
{
    if write_keys {
        let count = array.len();
        add_keys(
            array,
            buffers,
            arrow_data,
            nodes,
            variadic,
            offset,
            is_little_endian,
        )?;
        return Ok(count);
    }
    let values = only_part(array);
    let count = values.len();
    add_values(
        values,
        buffers,
        arrow_data,
        nodes,
        variadic,
        offset,
        is_little_endian,
    )?;
    Ok(count)
}
