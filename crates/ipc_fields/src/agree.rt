//! All uses of one dictionary have values of one kind.
ghost use Rattle.std.specs.Prelude.{◌≡◌, ◌∷◌, [], map, IfOk, IfErr, List};
ghost use Rattle.arrow_spec.specs.Readings.{only_if};
ghost use Rattle.ipc_fields.specs.Causes.{Decodes};
ghost use Rattle.arrow_spec.specs.declared.error.OutOfSpecKind.TheVariants.{InvalidIdDataType};
ghost use Rattle.arrow_spec.specs.Kinds.{Use as KindUse, values_under, agrees_with};
ghost use Rattle.arrow_spec.specs.Schema.{uses_agree};
ghost use Rattle.ipc_fields.specs.Uses.{use_in};
ghost use Rattle.ipc_fields.specs.Latest.{Holds, agreed};

use crate::kinds::is_same_use;
use crate::uses::Use;
use arrow_spec::{IpcError, OutOfSpecKind};
use std::alloc::Global;
use std::collections::BTreeMap;

/// Whether a use agrees with the latest one of its id.
fn agrees(latest: &BTreeMap<i64, Use>, found: &Use) -> bool
    ensures { (earlier : List KindUse) → Holds latest.now earlier → result ≡ agrees_with (values_under found.now.id earlier) (use_in found.now).values }
{
    match latest.get(&found.id) {
        None => true,
        Some(known) => is_same_use(known, found),
    }
}

/// Takes a use as the latest of its id.
fn take_use(latest: &mut BTreeMap<i64, Use>, found: Use) -> Result<(), IpcError>
    ensures gives { (earlier : List KindUse) → Holds latest.old earlier → Decodes (λ u. tt) result (agreed (use_in found) earlier) }
    ensures holds { (earlier : List KindUse) → Holds latest.old earlier → IfOk result (λ u. Holds latest.new (use_in found ∷ earlier)) }
{
    if !agrees(latest, &found) {
        return Err(IpcError::OutOfSpec(OutOfSpecKind::InvalidIdDataType {
            requested_id: found.id,
        }));
    }
    drop(latest.insert(found.id, found)?);
    Ok(())
}

/// Compares each use with the latest one of its id before it.
pub fn check_uses(alloc: Global, uses: Vec<Use>) -> Result<(), IpcError>
    ensures gives { Decodes (λ u. tt) result (uses_agree [] (map use_in uses.items)) }
{
    let mut latest = BTreeMap::new(alloc);
    for found in uses {
        take_use(&mut latest, found)?;
    }
    Ok(())
}
