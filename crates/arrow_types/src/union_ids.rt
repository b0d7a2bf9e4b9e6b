//! The ids of a union's children (Schema.fbs, Union).
ghost use Rattle.std.specs.Prelude.{◌≡◌, not, nat_lt, nat_le, ◌&&◌};
ghost use Rattle.arrow_spec.specs.Schema.{is_id, are_ids, is_id_behind};
ghost use Rattle.arrow_types.specs.KindOf.{ids_of};
ghost use Rattle.arrow_types.specs.UnionIds as specs;

/// Whether an id stands in a list.
#[tactic(auto, using(crate::proofs::UnionIds::among_found, crate::proofs::UnionIds::among_next, crate::proofs::UnionIds::among_none))]
fn is_among(ids: &[i32], id: i32) -> bool
    ensures { result ≡ is_id_behind ids.now id }
{
    for other in ids {
        if id == *other {
            return true;
        }
    }
    false
}

/// A number in 0 to 127.
fn is_id(id: i32) -> bool
    ensures { result ≡ is_id id }
{
    0 <= id && id <= 127
}

/// Whether an id is right before the others.
fn is_right_before(id: i32, others: &[i32]) -> bool
    ensures { result ≡ (is_id id && not (is_id_behind others.now id)) }
{
    is_id(id) && !is_among(others, id)
}

/// Distinct numbers in 0 to 127. Where 128 of them stand behind a number it is wrong, so few are looked at for each.
#[tactic(auto, using(crate::proofs::UnionIds::one_wrong, crate::proofs::UnionIds::one_right))]
fn are_ids(ids: &[i32]) -> bool
    ensures { result ≡ are_ids ids.now }
{
    let mut at = ids.len();
    while at > 0 {
        at -= 1;
        if !is_right_before(ids[at], &ids[at + 1..]) {
            return false;
        }
    }
    true
}

/// Whether these are the ids of so many children.
pub fn are_right(ids: &[i32], children: usize) -> bool
    ensures { result ≡ specs.are_right ids.now children }
{
    are_ids(ids) && ids.len() == children && children > 0
}

fn are_few(children: usize) -> bool
    ensures { result ≡ (nat_lt 0 children && nat_le children 128) }
{
    children > 0 && children <= 128
}

/// Whether a union has right ids for so many children; those that are not stated count from 0.
#[tactic(auto, using(crate::proofs::UnionIds::counted_few))]
pub fn has_right_ids(ids: &Option<Vec<i32>>, children: usize) -> bool
    ensures { result ≡ specs.are_right (ids_of ids.now children) children }
{
    match ids {
        None => are_few(children),
        Some(ids) => are_right(ids.as_slice(), children),
    }
}
