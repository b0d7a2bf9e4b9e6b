//! Fields and columns by their names.
ghost use Rattle.std.specs.Prelude.{◌≡◌};
ghost use Rattle.std.specs.Option.{option_map};
ghost use Rattle.arrow_types.specs.Schemas.{entry_of};
ghost use Rattle.arrow_arrays.specs.PartsOf.{parts_of};
ghost use Rattle.arrow_columns.specs.Named.{is_named, place_of, column_of};

use arrow_arrays::{Array, RecordBatch};
use arrow_types::{ArrowSchema, Field};

/// Whether there is such a field, and this is its name.
fn is_named(field: Option<(&String, &Field)>, name: &str) -> bool
    ensures { result ≡ is_named name.now (option_map entry_of field.entry) }
{
    match field {
        None => false,
        Some((key, _)) => key.as_str() == name,
    }
}

/// The place of the field of this name in a schema, counted from 0; none where no field has the name.
/// It looks at one field after another.
pub fn index_of(schema: &ArrowSchema, name: &str) -> Option<usize>
    ensures { result ≡ place_of name.now schema.now }
{
    for i in 0..schema.len() {
        if is_named(schema.get_at_index(i), name) {
            return Some(i);
        }
    }
    None
}

/// The column under the field of this name; none where no field has the name.
pub fn column<'a>(batch: &'a RecordBatch, name: &str) -> Option<&'a Array>
    ensures { option_map (λ a. parts_of a.now) result ≡ column_of name.now batch.now }
{
    let place = index_of(batch.schema(), name)?;
    batch.arrays().get(place)
}
