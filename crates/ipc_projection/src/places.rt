//! Places of columns: among those asked for, and in a batch.
ghost use Rattle.std.specs.Prelude.{◌≡◌, ◌∷◌, ◌⊎◌, [], length, Ok, Err, Some, IfOk, IfErr};
ghost use Rattle.arrow_spec.specs.Files.{columns_right};
ghost use Rattle.arrow_spec.specs.declared.error.IpcError.TheVariants.{Memory};
ghost use Rattle.ipc_projection.specs.Places.{ArePlacesOf, AreRising, IsInverse, IsPermutation};

use arrow_spec::IpcError;
use std::alloc::Global;
use std::collections::BTreeMap;

/// For each column the place at which it is asked for.
pub(crate) fn places_asked(
    alloc: Global,
    columns: &[usize],
    width: usize,
) -> Result<Vec<Option<usize>>, IpcError>
    ensures placed { IfOk result (λ v. ArePlacesOf columns.now (length columns.now) v.items width) }
    ensures right { IfOk result (λ _. columns_right (Some columns.now) width ≡ Ok tt) }
    ensures err { IfErr result (λ e. (e ≡ Memory) ⊎ (columns_right (Some columns.now) width ≡ Err (e ∷ []))) }
{
    let mut places = vec![in alloc; None; width]?;
    for i in 0..columns.len() {
        let column = columns[i];
        if column >= width || places[column].is_some() {
            return Err(IpcError::Projection { index: column });
        }
        places[column] = Some(i);
    }
    Ok(places)
}

/// The numbers of columns with a place, and the map from a place among these to theirs.
pub(crate) fn rising_columns(
    alloc: Global,
    places: &[Option<usize>],
) -> Result<(Vec<usize>, BTreeMap<usize, usize>), IpcError>
    ensures rising { IfOk result (λ r. AreRising places.now (length places.now) r.0.items r.1) }
    ensures memory { IfErr result (λ e. e ≡ Memory) }
{
    let mut columns = Vec::new(alloc);
    let mut map = BTreeMap::new(alloc);
    for i in 0..places.len() {
        if let Some(place) = places[i] {
            drop(map.insert(columns.len(), place)?);
            columns.push(i)?;
        }
    }
    Ok((columns, map))
}

/// For each place asked the place from which its column comes.
pub(crate) fn sources(
    alloc: Global,
    map: &BTreeMap<usize, usize>,
    width: usize,
) -> Result<Vec<usize>, IpcError>
    requires permutes { IsPermutation map.now width }
    ensures inverse { IfOk result (λ v. IsInverse map.now v.items width) }
    ensures memory { IfErr result (λ e. e ≡ Memory) }
{
    let mut sources = vec![in alloc; 0; width]?;
    for i in 0..width {
        let Some(place) = map.get(&i) else {
            unreachable!()
        };
        sources[*place] = i;
    }
    Ok(sources)
}
