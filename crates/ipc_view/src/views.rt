//! Tests of views that are lent (Arrow Columnar Format, "Variable-size Binary View Layout").
ghost use Rattle.std.specs.Prelude.{◌≡◌, ◌+◌, ◌^◌, ◌≤◌, ◌<◌, IfSome, drop, length, not, take, true, IfErr};
ghost use Rattle.std.specs.Str.{bytes_eq, is_utf8};
ghost use Rattle.arrow_spec.specs.Arrays.{u32_of};
ghost use Rattle.arrow_spec.specs.Faults.{all_zero, some_row};
ghost use Rattle.arrow_buffers.specs.Views.{is_good_view, is_no_text_view, leads_right, view_bytes};
ghost use Rattle.view_types.specs.Sound.{AreRanges, Values};
ghost use Rattle.view_types.specs.Tops.{top_in};
ghost use Rattle.ipc_fields.specs.Causes.{IsOfBytes};
ghost use Rattle.ipc_view.specs.Answers.{Answers};
ghost use Rattle.ipc_view.specs.Built.{HasBitsIn};
ghost use Rattle.ipc_view.specs.Layouts.{buffers_in, is_bad_text_view, is_bad_view, view_causes, AreGood};

use crate::tests::is_text;
use crate::text_views::are_text_views;
use arrow_spec::{IpcError, OutOfSpecKind};
use view_types::{ViewParts, part_of, u32_at};

/// The most bytes that stand in a view itself.
pub(crate) const SHORT: usize = 12;

/// The number at a place of a view.
pub(crate) fn number_at(view: &[u8], at: usize) -> usize
    requires { at + 4 ≤ length view.now }
    ensures number { result ≡ u32_of view.now at }
    ensures small { result < 2 ^ 32 }
{
    u32_at(view, at, false) as usize
}

fn are_zeros(bytes: &[u8]) -> bool
    ensures { result ≡ all_zero bytes.now }
{
    for byte in bytes {
        if *byte != 0 {
            return false;
        }
    }
    true
}

fn are_same(a: &[u8], b: &[u8]) -> bool
    ensures { result ≡ bytes_eq a.now b.now }
{
    a == b
}

/// So many bytes from a place on.
fn bytes_from(bytes: &[u8], from: usize, count: usize) -> &[u8]
    requires { from + count ≤ length bytes.now }
    ensures { result.now ≡ take count (drop from bytes.now) }
{
    &bytes[from..from + count]
}

/// Whether a long view's range lies in its buffer, and its prefix agrees.
fn leads_right(parts: &ViewParts<'_>, view: &[u8]) -> bool
    requires size { length view.now ≡ 16 }
    requires lie { AreRanges parts.now.input.now parts.now.buffers.items }
    requires long { 12 < u32_of view.now 0 }
    ensures { result ≡ leads_right (buffers_in (top_in parts.now)) view.now }
{
    let length = number_at(view, 0);
    let number = number_at(view, 8);
    let from = number_at(view, 12);
    if number >= parts.buffers.len() {
        return false;
    }
    let buffer = part_of(parts.input, parts.buffers[number]);
    if buffer.len() < from + length {
        return false;
    }
    let bytes = bytes_from(buffer, from, length);
    are_same(&view[4..8], &bytes[..4])
}

/// Whether a view's padding is zero, or it leads to its bytes.
pub(crate) fn is_good_view(parts: &ViewParts<'_>, view: &[u8]) -> bool
    requires size { length view.now ≡ 16 }
    requires lie { AreRanges parts.now.input.now parts.now.buffers.items }
    ensures { result ≡ is_good_view (buffers_in (top_in parts.now)) view.now }
{
    let length = number_at(view, 0);
    if length <= SHORT {
        are_zeros(&view[4 + length..])
    } else {
        leads_right(parts, view)
    }
}

/// Whether the bytes of a good view are UTF-8.
pub(crate) fn leads_to_text(parts: &ViewParts<'_>, view: &[u8]) -> bool
    requires size { length view.now ≡ 16 }
    requires lie { AreRanges parts.now.input.now parts.now.buffers.items }
    requires good { is_good_view (buffers_in (top_in parts.now)) view.now ≡ true }
    ensures { result ≡ is_utf8 (view_bytes (buffers_in (top_in parts.now)) view.now) }
{
    let length = number_at(view, 0);
    if length <= SHORT {
        return is_text(bytes_from(view, 4, length));
    }
    let number = number_at(view, 8);
    let from = number_at(view, 12);
    let buffer = part_of(parts.input, parts.buffers[number]);
    is_text(bytes_from(buffer, from, length))
}

/// Whether a view is good, and its bytes are not UTF-8.
fn is_no_text(parts: &ViewParts<'_>, view: &[u8]) -> bool
    requires size { length view.now ≡ 16 }
    requires lie { AreRanges parts.now.input.now parts.now.buffers.items }
    ensures { result ≡ is_no_text_view (buffers_in (top_in parts.now)) view.now }
{
    is_good_view(parts, view) && !leads_to_text(parts, view)
}

/// Whether the view of each row that is not null is good.
fn are_good_views(parts: &ViewParts<'_>) -> bool
    requires views { Values (top_in parts.now) 16 }
    requires lie { AreRanges parts.now.input.now parts.now.buffers.items }
    requires bits { IfSome parts.now.validity (HasBitsIn parts.now.input.now parts.now.rows) }
    ensures { result ≡ not (some_row (is_bad_view (top_in parts.now)) parts.now.rows) }
{
    for row in 0..parts.rows {
        if !parts.is_unset(row) && !is_good_view(parts, parts.view(row)) {
            return false;
        }
    }
    true
}

/// Whether each good view of a row that is not null is UTF-8.
fn are_view_texts(parts: &ViewParts<'_>) -> bool
    requires views { Values (top_in parts.now) 16 }
    requires lie { AreRanges parts.now.input.now parts.now.buffers.items }
    requires bits { IfSome parts.now.validity (HasBitsIn parts.now.input.now parts.now.rows) }
    ensures { result ≡ not (some_row (is_bad_text_view (top_in parts.now)) parts.now.rows) }
{
    for row in 0..parts.rows {
        if !parts.is_unset(row) && is_no_text(parts, parts.view(row)) {
            return false;
        }
    }
    true
}

/// Whether views are good where rows are not null, and lead to texts where they have to.
pub(crate) fn check_views(parts: &ViewParts<'_>, is_text: bool) -> Result<(), IpcError>
    requires views { Values (top_in parts.now) 16 }
    requires lie { AreRanges parts.now.input.now parts.now.buffers.items }
    requires bits { IfSome parts.now.validity (HasBitsIn parts.now.input.now parts.now.rows) }
    ensures gives { Answers result (view_causes (top_in parts.now) is_text) (λ _. AreGood (top_in parts.now) is_text) }
    ensures cause { IfErr result IsOfBytes }
{
    if is_text && are_text_views(parts) {
        return Ok(());
    }
    if !are_good_views(parts) {
        return Err(IpcError::OutOfSpec(OutOfSpecKind::InvalidView));
    }
    if !is_text {
        return Ok(());
    }
    if !are_view_texts(parts) {
        return Err(IpcError::OutOfSpec(OutOfSpecKind::InvalidUtf8));
    }
    Ok(())
}
