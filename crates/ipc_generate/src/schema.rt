//! The schema of the generated table.
ghost use Rattle.std.specs.Prelude.{◌≡◌, [], IfOk};
ghost use Rattle.arrow_types.specs.KindOf.{child_of, kind_of};
ghost use Rattle.ipc_generate.specs.Arrays.{generated_schema};
ghost use Rattle.ipc_generate.specs.Table.{kind_of_d, kind_of_p};

use arrow_spec::IntegerType;
use arrow_types::{ArrowDataType, ArrowSchema, Field};
use std::alloc::{AllocError, Global};

/// A field without metadata.
fn field(
    alloc: Global,
    name: &str,
    dtype: ArrowDataType,
    is_nullable: bool,
) -> Result<Field, AllocError>
    ensures { IfOk result (λ f. child_of f ≡ record { name = name.now; kind = kind_of dtype; nullable = is_nullable; metadata = [] }) }
{
    let name = String::from_str(alloc, name)?;
    Ok(Field::new(alloc, name, dtype, is_nullable))
}

/// Dictionaries of texts, with keys of 16 bits.
pub(crate) fn dictionary_type(alloc: Global) -> Result<ArrowDataType, AllocError>
    ensures { IfOk result (λ t. kind_of t ≡ kind_of_d) }
{
    let values = Box::new(alloc, ArrowDataType::Utf8)?;
    Ok(ArrowDataType::Dictionary(IntegerType::Int16, values, false))
}

/// Lists of numbers of 32 bits.
pub(crate) fn list_type(alloc: Global) -> Result<ArrowDataType, AllocError>
    ensures { IfOk result (λ t. kind_of t ≡ kind_of_p) }
{
    let item = field(alloc, "item", ArrowDataType::Int32, false)?;
    Ok(ArrowDataType::List(Box::new(alloc, item)?))
}

/// The fields `n`, `t`, `d` and `p`.
pub(crate) fn generated_schema(alloc: Global) -> Result<ArrowSchema, AllocError>
    ensures { IfOk result (λ s. s ≡ generated_schema) }
{
    let n = field(alloc, "n", ArrowDataType::Int64, true)?;
    let t = field(alloc, "t", ArrowDataType::Utf8, false)?;
    let d = field(alloc, "d", dictionary_type(alloc)?, false)?;
    let p = field(alloc, "p", list_type(alloc)?, false)?;
    ArrowSchema::from_fields(alloc, vec![in alloc; n, t, d, p]?)
}
