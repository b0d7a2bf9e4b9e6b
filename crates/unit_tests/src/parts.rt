//! Pieces of bytes as views, items that are selected by their numbers, modes of unions, and paddings.
use arrow_arrays::{Array, extend_from_lengths};
use arrow_buffers::Buffer;
use arrow_types::UnionMode;
use ipc_projection::{ProjectionIter, ProjectionResult};
use ipc_write::pad_to_64;
use std::test::Fail;

/// Whether a row of an array of views has these bytes.
fn has_row(array: &Array, row: usize, bytes: &[u8]) -> bool {
    match array {
        Array::BinaryView(array) => row < array.len()
            && array.value(row).is_some_and(|value| value == bytes),
        _ => false,
    }
}

#[test]
fn pieces_in_and_beside_their_views(rt: HostRuntime) -> Result<(), Fail> {
    let bytes = Buffer::from_bytes(b"twelve bytesand thirteen.".to_vec(rt.alloc())?)?;
    assert!(rt; bytes.len() == 25);
    prove!(bytes.len() >= 25);
    let array = extend_from_lengths(rt.alloc(), bytes, &[12, 13, 0])?;
    assert!(rt; array.len() == 3 && has_row(&array, 0, b"twelve bytes"));
    assert!(rt; has_row(&array, 1, b"and thirteen.") && has_row(&array, 2, b""));
    drop(array);
    Ok(())
}

#[test]
fn no_pieces_are_no_rows(rt: HostRuntime) -> Result<(), Fail> {
    let bytes = Buffer::from_bytes(Vec::new(rt.alloc()))?;
    let array = extend_from_lengths(rt.alloc(), bytes, &[])?;
    assert!(rt; array.len() == 0);
    drop(array);
    Ok(())
}

#[test]
fn items_at_the_numbers_are_selected(rt: HostRuntime) {
    for item in ProjectionIter::new(&[0, 2, 4], 1..6) {
        match item {
            ProjectionResult::Selected(n) => assert!(rt; n % 2 == 1),
            ProjectionResult::NotSelected(n) => assert!(rt; n % 2 == 0),
        }
    }
}

#[test]
fn modes_of_unions(rt: HostRuntime) {
    assert!(rt; UnionMode::sparse(true).is_sparse() && !UnionMode::sparse(true).is_dense());
    assert!(rt; UnionMode::sparse(false).is_dense() && !UnionMode::sparse(false).is_sparse());
}

#[test]
fn padding_to_a_multiple_of_64(rt: HostRuntime) {
    assert!(rt; pad_to_64(0) == 0 && pad_to_64(1) == 63);
    assert!(rt; pad_to_64(64) == 0 && pad_to_64(65) == 63);
}
