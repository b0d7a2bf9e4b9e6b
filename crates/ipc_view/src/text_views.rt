//! Views that are to be text (Arrow Columnar Format, "Variable-size Binary View Layout").
ghost use Rattle.std.specs.Prelude.{◌≡◌, ◌&&◌, IfSome, IsTrue, length, not, true};
ghost use Rattle.std.specs.Str.{IsAscii, is_utf8};
ghost use Rattle.arrow_spec.specs.Faults.{some_row};
ghost use Rattle.arrow_buffers.specs.Views.{AreTexts, is_good_view, is_text_view, view_bytes};
ghost use Rattle.view_types.specs.Sound.{AreRanges, Values};
ghost use Rattle.view_types.specs.Tops.{top_in};
ghost use Rattle.ipc_view.specs.Built.{HasBitsIn};
ghost use Rattle.ipc_view.specs.Layouts.{buffers_in, is_bad_text_view, is_bad_view};

use crate::tests::{is_boundary, is_text};
use crate::views::{SHORT, is_good_view, leads_to_text, number_at};
use std::simd::prelude::*;
use view_types::{ViewParts, part_of};

/// How many bytes of buffers to a row are read as a whole, used by a row or not.
const BYTES_READ: usize = 64;

/// Whether the bytes of a view are all ASCII, those of its length too.
fn is_ascii(view: &[u8]) -> bool
    requires { length view.now ≡ 16 }
    ensures { IsTrue result → IsAscii view.now }
{
    u8x16::from_slice(view)
        .simd_ge(u8x16::splat(128))
        .to_bitmask()
        == 0
}

/// Whether each of the buffers is UTF-8, and they have no more bytes than `most` together.
fn are_text_buffers(parts: &ViewParts<'_>, most: usize) -> bool
    requires { AreRanges parts.now.input.now parts.now.buffers.items }
    ensures { IsTrue result → AreTexts (buffers_in (top_in parts.now)) }
{
    let mut left = most;
    for number in 0..parts.buffers.len() {
        let buffer = part_of(parts.input, parts.buffers[number]);
        if left < buffer.len() || !is_text(buffer) {
            return false;
        }
        left -= buffer.len();
    }
    true
}

/// Whether a good view is text at a glance: a short one of ASCII alone, or one between two characters of a buffer.
fn is_text_at_a_glance(parts: &ViewParts<'_>, view: &[u8], are_texts: bool) -> bool
    requires size { length view.now ≡ 16 }
    requires lie { AreRanges parts.now.input.now parts.now.buffers.items }
    requires good { is_good_view (buffers_in (top_in parts.now)) view.now ≡ true }
    requires texts { IsTrue are_texts → AreTexts (buffers_in (top_in parts.now)) }
    ensures { IsTrue result → is_utf8 (view_bytes (buffers_in (top_in parts.now)) view.now) ≡ true }
{
    let length = number_at(view, 0);
    if length <= SHORT {
        return is_ascii(view);
    }
    if !are_texts {
        return false;
    }
    let number = number_at(view, 8);
    let from = number_at(view, 12);
    let buffer = part_of(parts.input, parts.buffers[number]);
    if !is_boundary(buffer, from) {
        return false;
    }
    is_boundary(buffer, from + length)
}

/// Whether a view is good and its bytes are UTF-8; `are_texts` says that the buffers are known to be.
fn is_text_view(parts: &ViewParts<'_>, view: &[u8], are_texts: bool) -> bool
    requires size { length view.now ≡ 16 }
    requires lie { AreRanges parts.now.input.now parts.now.buffers.items }
    requires texts { IsTrue are_texts → AreTexts (buffers_in (top_in parts.now)) }
    ensures { result ≡ is_text_view (buffers_in (top_in parts.now)) view.now }
{
    if !is_good_view(parts, view) {
        return false;
    }
    if is_text_at_a_glance(parts, view, are_texts) {
        return true;
    }
    leads_to_text(parts, view)
}

/// Whether the view of each row that is not null is good and UTF-8.
pub(crate) fn are_text_views(parts: &ViewParts<'_>) -> bool
    requires views { Values (top_in parts.now) 16 }
    requires lie { AreRanges parts.now.input.now parts.now.buffers.items }
    requires bits { IfSome parts.now.validity (HasBitsIn parts.now.input.now parts.now.rows) }
    ensures { result ≡ (not (some_row (is_bad_view (top_in parts.now)) parts.now.rows) && not (some_row (is_bad_text_view (top_in parts.now)) parts.now.rows)) }
{
    let are_texts = are_text_buffers(parts, parts.rows.saturating_mul(BYTES_READ));
    for row in 0..parts.rows {
        if !parts.is_unset(row) && !is_text_view(parts, parts.view(row), are_texts) {
            return false;
        }
    }
    true
}
