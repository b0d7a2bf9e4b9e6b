//! Arrays of views of byte strings and texts (Arrow Columnar Format, "Variable-size Binary View Layout").
ghost use Rattle.std.specs.Prelude.{◌≡◌, ◌+◌, ◌≤◌, ◌<◌, length, map, Some, None, IfOk, IfErr, true, if◌then◌else◌};
ghost use Rattle.std.specs.Option.{option_map};
ghost use Rattle.arrow_types.specs.KindOf.{kind_of};
ghost use Rattle.arrow_types.specs.Physical.{physical_of};
ghost use Rattle.arrow_buffers.specs.Rows.{part, has_rows, null_rows, is_valid};
ghost use Rattle.arrow_buffers.specs.Layouts.{is_view};
ghost use Rattle.arrow_buffers.specs.Views.{view_rows, view_at, view_bytes, view_part, view_cells, view_fault};

use crate::text_view::are_text_views;
use crate::validity::are_whole_rows;
use crate::view::{VIEW_SIZE, are_good_views, are_view_texts, bytes_in, clone_buffers, view_at};
use crate::{
    ArrayError, Bitmap, Buffer, ByteRows, TextRows, ViewType, clone_validity, layout,
    narrow_validity, nulls_in, validity_at,
};
use arrow_types::ArrowDataType;
use std::alloc::{AllocError, Global};
use std::marker::{Model, PhantomData};

/// An array of views, seen as its type's kind, its views of 16 bytes a row, its buffers and its validity.
pub struct BinaryViewArrayGeneric<V: ViewType> {
    dtype: ArrowDataType,
    views: Buffer<u8>,
    data_buffers: Vec<Buffer<u8>>,
    validity: Option<Bitmap>,
    rows: PhantomData<V>,
}

impl<V: ViewType> Drop for BinaryViewArrayGeneric<V> {
    fn drop(self) {
        let BinaryViewArrayGeneric {
            dtype,
            views,
            data_buffers,
            validity,
            rows: _,
        } = self;
        drop(dtype);
        drop(views);
        drop(data_buffers);
        drop(validity);
    }
}

/// An array of views of byte strings.
pub type BinaryViewArray = BinaryViewArrayGeneric<ByteRows>;

/// An array of views of texts.
pub type Utf8ViewArray = BinaryViewArrayGeneric<TextRows>;

impl<V: ViewType> Model for BinaryViewArrayGeneric<V> {
    ghost use Rattle.std.specs.Prelude.{◌≡◌, None};
    ghost use Rattle.arrow_types.specs.KindOf.{kind_of};
    ghost use Rattle.arrow_types.specs.Physical.{physical_of};
    ghost use Rattle.arrow_buffers.specs.Layouts.{is_view};
    ghost use Rattle.arrow_buffers.specs.Views.{Views, views_code, view_fault};

    ghost Value = { Views };

    ghost coded = { views_code };

    ghost view = { λ a. record { kind = kind_of a.dtype; views = a.views; buffers = a.data_buffers.items; validity = a.validity } };

    ghost invariant = { λ a. view_fault V.IS_TEXT (is_view V.IS_TEXT (physical_of (kind_of a.dtype))) (record { kind = kind_of a.dtype; views = a.views; buffers = a.data_buffers.items; validity = a.validity }) ≡ None };
}

/// Why these parts are no array, where they are none. Good parts are looked at once.
fn fault_in<V: ViewType>(
    dtype: &ArrowDataType,
    views: &Buffer<u8>,
    buffers: &[Buffer<u8>],
    validity: &Option<Bitmap>,
) -> Option<ArrayError>
    ensures { result ≡ view_fault V.IS_TEXT (is_view V.IS_TEXT (physical_of (kind_of dtype.now))) (record { kind = kind_of dtype.now; views = views.now; buffers = buffers.now; validity = validity.now }) }
{
    if !layout::is_view(dtype, V::IS_TEXT) {
        return Some(ArrayError::DataType);
    }
    if !are_whole_rows(VIEW_SIZE, views.len(), validity) {
        return Some(ArrayError::Length);
    }
    if V::IS_TEXT && are_text_views(views.as_slice(), buffers, validity) {
        return None;
    }
    if V::IS_TEXT && !are_view_texts(views.as_slice(), buffers, validity) {
        return Some(ArrayError::Utf8);
    }
    if !are_good_views(views.as_slice(), buffers, validity) {
        return Some(ArrayError::View);
    }
    None
}

impl<V: ViewType> BinaryViewArrayGeneric<V> {
    /// The array of these parts.
    pub fn try_new(
        dtype: ArrowDataType,
        views: Buffer<u8>,
        data_buffers: Vec<Buffer<u8>>,
        validity: Option<Bitmap>,
    ) -> Result<BinaryViewArrayGeneric<V>, ArrayError>
        ensures ok { IfOk result (λ a. a ≡ record { kind = kind_of dtype; views = views; buffers = data_buffers.items; validity = validity }) }
        ensures sound { IfOk result (λ _. view_fault V.IS_TEXT (is_view V.IS_TEXT (physical_of (kind_of dtype))) (record { kind = kind_of dtype; views = views; buffers = data_buffers.items; validity = validity }) ≡ None) }
        ensures err { IfErr result (λ e. view_fault V.IS_TEXT (is_view V.IS_TEXT (physical_of (kind_of dtype))) (record { kind = kind_of dtype; views = views; buffers = data_buffers.items; validity = validity }) ≡ Some e) }
    {
        match fault_in::<V>(&dtype, &views, data_buffers.as_slice(), &validity) {
            Some(fault) => Err(fault),
            None => Ok(BinaryViewArrayGeneric {
                dtype,
                views,
                data_buffers,
                validity,
                rows: PhantomData,
            }),
        }
    }

    /// How many rows there are.
    pub fn len(&self) -> usize
        ensures rows { result ≡ view_rows self.now.views }
        ensures cells { result ≡ length (view_cells V.IS_TEXT self.now) }
        ensures sound { view_fault V.IS_TEXT (is_view V.IS_TEXT (physical_of self.now.kind)) self.now ≡ None }
    {
        self.views.len() / VIEW_SIZE
    }

    /// The type.
    pub fn dtype(&self) -> &ArrowDataType
        ensures { kind_of result.now ≡ self.now.kind }
    {
        &self.dtype
    }

    /// The views of the rows, 16 bytes each.
    pub fn views(&self) -> &Buffer<u8>
        ensures { result.now ≡ self.now.views }
    {
        &self.views
    }

    /// The buffers that hold rows of more than 12 bytes.
    pub fn data_buffers(&self) -> &[Buffer<u8>]
        ensures { result.now ≡ self.now.buffers }
    {
        self.data_buffers.as_slice()
    }

    /// Which rows are not null; all, where there is no bitmap.
    pub fn validity(&self) -> Option<&Bitmap>
        ensures bits { option_map (λ b. b.now) result ≡ self.now.validity }
        ensures rows { has_rows self.now.validity (view_rows self.now.views) ≡ true }
    {
        self.validity.as_ref()
    }

    /// How many rows are null.
    pub fn null_count(&self) -> usize
        ensures { result ≡ null_rows self.now.validity }
    {
        nulls_in(&self.validity)
    }

    /// The bytes that a row holds; none where it is null.
    pub fn value(&self, row: usize) -> Option<&[u8]>
        requires { row < view_rows self.now.views }
        ensures { option_map (λ bytes. bytes.now) result ≡ (if is_valid self.now.validity row then Some (view_bytes self.now.buffers (view_at self.now.views row)) else None) }
    {
        if !validity_at(&self.validity, row) {
            return None;
        }
        let view = view_at(self.views.as_slice(), row);
        Some(bytes_in(self.data_buffers.as_slice(), view))
    }

    /// Leaves only the part, and copies nothing.
    pub fn narrow(&mut self, offset: usize, rows: usize)
        requires { offset + rows ≤ view_rows self.old.views }
        ensures parts { self.new ≡ view_part offset rows self.old }
        ensures cells { view_cells V.IS_TEXT self.new ≡ part offset rows (view_cells V.IS_TEXT self.old) }
    {
        prove!(self.views.len() / VIEW_SIZE >= offset + rows);
        self.views.narrow(VIEW_SIZE * offset, VIEW_SIZE * rows);
        narrow_validity(&mut self.validity, offset, rows);
    }

    /// The part, which shares the memory.
    pub fn sliced(self, offset: usize, rows: usize) -> BinaryViewArrayGeneric<V>
        requires { offset + rows ≤ view_rows self.views }
        ensures parts { result ≡ view_part offset rows self }
        ensures cells { view_cells V.IS_TEXT result ≡ part offset rows (view_cells V.IS_TEXT self) }
    {
        let mut part = self;
        part.narrow(offset, rows);
        part
    }

    /// A second owner of the same parts.
    pub fn try_clone(&self, alloc: Global) -> Result<BinaryViewArrayGeneric<V>, AllocError>
        ensures { IfOk result (λ a. a ≡ self.now) }
    {
        Ok(BinaryViewArrayGeneric {
            dtype: self.dtype.try_clone(alloc)?,
            views: self.views.try_clone()?,
            data_buffers: clone_buffers(alloc, self.data_buffers.as_slice())?,
            validity: clone_validity(&self.validity)?,
            rows: PhantomData,
        })
    }
}
