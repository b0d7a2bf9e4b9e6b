//! Flatbuffers that are built.
ghost use Rattle.std.specs.Prelude.{◌≡◌, ◌^◌, ◌<◌, ◌≤◌, IfOk, vec_len};
ghost use Rattle.arrow_spec.specs.Layout.{layout, size};
ghost use Rattle.arrow_spec.specs.Held.{Fits};
ghost use Rattle.arrow_flat.specs.Nodes.{node_of, NumbersFit, IsTable, KeepsSlotLimit, ReadsBack};

use crate::measure::size_of;
use crate::node::Node;
use crate::write::{place_of, put, put_u32};
use std::alloc::{AllocError, Global};
use thiserror::Error;

/// Why no flatbuffer was built.
#[derive(Debug, Drop, Error)]
pub enum BuildError {
    /// The layout passes 2^31 - 1 bytes.
    #[error("too large")]
    TooLarge,
    /// Memory ran out.
    #[error("out of memory")]
    Memory,
}

impl From<AllocError> for BuildError {
    ghost use Rattle.std.specs.Prelude.{◌≡◌};
    ghost use Rattle.arrow_flat.specs.declared.build.BuildError.TheVariants.{Memory};

    ghost from_gives = { λ _ e. e ≡ Memory };

    fn from(_error: AllocError) -> BuildError {
        BuildError::Memory
    }
}

/// The layout of a node whose size is known to be small.
#[tactic(auto, using(crate::proofs::Fronts::places), unfolding(arrow_spec::specs::Layout::layout, arrow_spec::specs::Layout::size))]
fn build(alloc: Global, node: &Node) -> Result<Vec<u8>, AllocError>
    requires slot_limit { KeepsSlotLimit (node_of node.now) }
    requires short { size (node_of node.now) < 2 ^ 31 }
    ensures layout { IfOk result (λ v. v.items ≡ layout (node_of node.now)) }
    ensures size { IfOk result (λ v. vec_len v ≡ size (node_of node.now)) }
    ensures fits { IfOk result (λ v. NumbersFit (node_of node.now)) }
{
    let mut out = Vec::new(alloc);
    put_u32(&mut out, place_of(node, 4) as u32)?;
    put(&mut out, node)?;
    Ok(out)
}

/// The flatbuffer of a root table, in the builder's one layout: each table behind its vtable, the inline values in
/// slot order, and then the children in slot order, each laid whole before the next. Nothing is shared, and nothing
/// is padded at the end. Its length is [`size_of`] the node.
///
/// # Errors
///
/// `TooLarge` where the layout passes 2^31 - 1 bytes, `Memory` where memory runs out.
#[tactic(auto, using(crate::proofs::ReadBack::reads))]
pub fn finish(alloc: Global, node: &Node) -> Result<Vec<u8>, BuildError>
    requires root { IsTable (node_of node.now) }
    requires slot_limit { KeepsSlotLimit (node_of node.now) }
    ensures layout { IfOk result (λ v. v.items ≡ layout (node_of node.now)) }
    ensures size { IfOk result (λ v. vec_len v ≡ size (node_of node.now)) }

    // Each slot reads back, down to the last child.
    ensures back { IfOk result (λ v. ReadsBack (node_of node.now) v.items) }
    ensures fits { IfOk result (λ v. Fits (node_of node.now)) }

    // The layout passes 2^31 - 1 bytes exactly where that is answered.
    ensures large { 2 ^ 31 ≤ size (node_of node.now) → result ≡ Err BuildError.TooLarge }
    ensures only_large { result ≡ Err BuildError.TooLarge → 2 ^ 31 ≤ size (node_of node.now) }
{
    if size_of(node) >= 0x8000_0000 {
        return Err(BuildError::TooLarge);
    }
    Ok(build(alloc, node)?)
}
