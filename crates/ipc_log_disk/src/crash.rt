//! What a crash leaves of bytes in memory, change by change.
ghost use Rattle.std.specs.Prelude.{◌≡◌, ◌+◌, ◌++◌, ◌∷◌, [], IfOk, length, reverse, take, drop};
ghost use Rattle.ipc_log_disk.specs.Histories.{content_after, crashed_after, left_behind, torn_by};

use crate::Change;
use std::alloc::{AllocError, Global};

// Bytes with others in place of so many from a place on.
fn replaced(
    alloc: Global,
    held: &[u8],
    at: u64,
    count: u64,
    others: &[u8],
) -> Result<Vec<u8>, AllocError>
    ensures { IfOk result (λ v. v.items ≡ take at held.now ++ (others.now ++ drop (at + count) held.now)) }
{
    let start = at.min(held.len() as u64) as usize;
    let end = start + count.min((held.len() - start) as u64) as usize;
    let mut bytes = Vec::new(alloc);
    bytes.extend_from_slice(&held[..start])?;
    bytes.extend_from_slice(others)?;
    bytes.extend_from_slice(&held[end..])?;
    Ok(bytes)
}

// Bytes that a write was to change, each of them one byte, where there may be so many in all.
fn torn(
    alloc: Global,
    held: &[u8],
    at: u64,
    count: u64,
    fill: u8,
    most: usize,
) -> Result<Vec<u8>, AllocError>
    ensures { IfOk result (λ v. v.items ≡ torn_by fill most at count held.now) }
{
    if (held.len() as u64) < at {
        return held.to_vec(alloc);
    }
    let room = (held.len().max(most) - at as usize) as u64;
    let others = vec![in alloc; fill; count.min(room) as usize]?;
    replaced(alloc, held, at, count, &others)
}

// What a read gives behind one change more.
fn read_behind(alloc: Global, held: &[u8], change: &Change) -> Result<Vec<u8>, AllocError>
    ensures { IfOk result (λ v. v.items ≡ content_after held.now (change.now ∷ [])) }
{
    match change {
        Change::Written { at, bytes, .. } => replaced(alloc, held, *at, bytes.len() as u64, bytes),
        Change::Synced => held.to_vec(alloc),
    }
}

// What a crash leaves behind one change more.
fn crashed_behind(
    alloc: Global,
    held: &[u8],
    left: &[u8],
    change: &Change,
    fill: u8,
    most: usize,
) -> Result<Vec<u8>, AllocError>
    ensures { IfOk result (λ v. v.items ≡ left_behind fill most held.now left.now change.now) }
{
    match change {
        Change::Written { at, count, .. } => torn(alloc, left, *at, *count, fill, most),
        Change::Synced => held.to_vec(alloc),
    }
}

// What a crash leaves behind some changes, the oldest first.
pub(crate) fn crashed_bytes(
    alloc: Global,
    first: &[u8],
    changes: &[Change],
    fill: u8,
    size: usize,
) -> Result<Vec<u8>, AllocError>
    ensures { IfOk result (λ v. v.items ≡ crashed_after fill size first.now (reverse changes.now)) }
{
    let mut held = first.to_vec(alloc)?;
    let mut left = first.to_vec(alloc)?;
    for change in changes {
        left = crashed_behind(alloc, &held, &left, change, fill, size)?;
        held = read_behind(alloc, &held, change)?;
    }
    Ok(left)
}
