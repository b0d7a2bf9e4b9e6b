//! Whether the tables of a schema can say the types of arrays.
ghost use Rattle.std.specs.Prelude.{◌≡◌};
ghost use Rattle.arrow_arrays.specs.Columns.{columns_of};
ghost use Rattle.arrow_arrays.specs.PartsOf.{forest_of};
ghost use Rattle.ipc_fields.specs.Representable.{all_representable};

use arrow_arrays::Array;
use ipc_fields::representable::is_representable;

/// Whether the tables of a schema can say the types of arrays.
pub(crate) fn are_representable(arrays: &[Array]) -> bool
    ensures { result ≡ all_representable (columns_of (forest_of arrays.now)) }
{
    for array in arrays {
        if !is_representable(array.dtype()) {
            return false;
        }
    }
    true
}
