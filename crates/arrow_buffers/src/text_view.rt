//! Views that are to be text (Arrow Columnar Format, "Variable-size Binary View Layout").
ghost use Rattle.std.specs.Prelude.{◌≡◌, ◌&&◌, length, not, true, IsTrue};
ghost use Rattle.std.specs.Str.{is_utf8, IsAscii};
ghost use Rattle.arrow_buffers.specs.Rows.{has_rows};
ghost use Rattle.arrow_buffers.specs.Views.{view_rows, view_bytes, is_good_view, is_text_view, AreTexts, has_bad_view, has_bad_view_text};

use crate::texts::{is_boundary, is_text};
use crate::view::{SHORT, VIEW_SIZE, bytes_in, is_good_view, number_at, view_at};
use crate::{Bitmap, Buffer, validity_at};
use std::simd::prelude::*;

/// How many bytes of buffers to a byte of views are read as a whole, used by a row or not.
const BYTES_READ: usize = 4;

/// Whether the bytes of a view are all ASCII, those of its length too.
fn is_ascii(view: &[u8]) -> bool
    requires { length view.now ≡ 16 }
    ensures { IsTrue result → IsAscii view.now }
{
    u8x16::from_slice(view)
        .simd_ge(u8x16::splat(128))
        .to_bitmask()
        == 0
}

/// Whether each of the buffers is UTF-8, and they have no more bytes than `most` together.
fn are_text_buffers(buffers: &[Buffer<u8>], most: usize) -> bool
    ensures { IsTrue result → AreTexts buffers.now }
{
    let mut left = most;
    for buffer in buffers {
        if left < buffer.len() || !is_text(buffer.as_slice()) {
            return false;
        }
        left -= buffer.len();
    }
    true
}

/// Whether a good view is text at a glance: a short one of ASCII alone, or one between two characters of a buffer.
fn is_text_at_a_glance(buffers: &[Buffer<u8>], view: &[u8], are_texts: bool) -> bool
    requires size { length view.now ≡ 16 }
    requires good { is_good_view buffers.now view.now ≡ true }
    requires texts { IsTrue are_texts → AreTexts buffers.now }
    ensures { IsTrue result → is_utf8 (view_bytes buffers.now view.now) ≡ true }
{
    let length = number_at(view, 0);
    if length <= SHORT {
        return is_ascii(view);
    }
    if !are_texts {
        return false;
    }
    let number = number_at(view, 8);
    let from = number_at(view, 12);
    let buffer = buffers[number].as_slice();
    if !is_boundary(buffer, from) {
        return false;
    }
    is_boundary(buffer, from + length)
}

/// Whether a view is good and its bytes are UTF-8; `are_texts` says that the buffers are known to be.
fn is_text_view(buffers: &[Buffer<u8>], view: &[u8], are_texts: bool) -> bool
    requires size { length view.now ≡ 16 }
    requires texts { IsTrue are_texts → AreTexts buffers.now }
    ensures { result ≡ is_text_view buffers.now view.now }
{
    if !is_good_view(buffers, view) {
        return false;
    }
    if is_text_at_a_glance(buffers, view, are_texts) {
        return true;
    }
    is_text(bytes_in(buffers, view))
}

/// Whether the view of each row that is not null is good and UTF-8.
pub(crate) fn are_text_views(
    views: &[u8],
    buffers: &[Buffer<u8>],
    validity: &Option<Bitmap>,
) -> bool
    requires { has_rows validity.now (view_rows views.now) ≡ true }
    ensures { result ≡ (not (has_bad_view views.now buffers.now validity.now) && not (has_bad_view_text views.now buffers.now validity.now)) }
{
    let are_texts = are_text_buffers(buffers, views.len().saturating_mul(BYTES_READ));
    for row in 0..views.len() / VIEW_SIZE {
        if validity_at(validity, row) && !is_text_view(buffers, view_at(views, row), are_texts) {
            return false;
        }
    }
    true
}
