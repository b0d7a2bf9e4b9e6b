//! A view of an array.
ghost use Rattle.std.specs.Prelude.{◌≡◌, ◌<◌, Some, false, IfOk, not, nat_eq};
ghost use Rattle.view_types.specs.Sound.{IsSound, ends_after};
ghost use Rattle.view_types.specs.Tops.{top_in};
ghost use Rattle.view_types.specs.declared.layout.Layout.TheVariants.{Struct};
ghost use Rattle.view_types.specs.Views.{array, views, rows_each, rows_of, child_at, children_of, count_of, is_valid, is_keys, layout_of};

use crate::layout::Layout;
use crate::parts::ViewParts;
use std::alloc::{AllocError, Global};
use std::marker::Model;

/// An array whose bytes are lent: ranges of the input under a layout, and its children.
#[derive(Drop)]
pub struct ArrayView<'a> {
    pub(crate) parts: ViewParts<'a>,
    pub(crate) children: Vec<ArrayView<'a>>,
    /// Where each child of a dictionary ends among the rows of all.
    pub(crate) ends: Vec<u128>,
}

impl<'a> Model for ArrayView<'a> {
    ghost use Rattle.view_types.specs.Views.{View};
    ghost use Rattle.view_types.specs.ViewCode.{view_code};

    ghost Value = { View };

    ghost coded = { view_code };

    ghost use Rattle.view_types.specs.Views.{array, views, view_size};
    ghost use Rattle.view_types.specs.Tops.{top_in};
    ghost use Rattle.view_types.specs.Sound.{IsWhole};

    ghost view = { λ a. array (top_in a.parts) (views a.children.items) };

    ghost invariant = { λ a. IsWhole (top_in a.parts) (views a.children.items) a.ends.items };

    ghost size = { view_size };

    ghost use Rattle.std.proofs.Common.{arith};
    ghost use Rattle.view_types.specs.Falls.{several_fall};

    ghost size_decreases = { λ a h. omega (arith, several_fall a.children.items) };
}

/// Where each of some views ends among the rows of all.
fn ends_of<'a>(alloc: Global, children: &[ArrayView<'a>]) -> Result<Vec<u128>, AllocError>
    ensures { IfOk result (λ v. v.items ≡ ends_after 0 (rows_each (views children.now))) }
{
    let mut ends = Vec::new(alloc);
    let mut end = 0_u128;
    for view in children {
        end += view.len() as u128;
        ends.push(end)?;
    }
    Ok(ends)
}

impl<'a> ArrayView<'a> {
    /// A view of these parts and children, which is no dictionary.
    pub fn new(alloc: Global, parts: ViewParts<'a>, children: Vec<ArrayView<'a>>) -> ArrayView<'a>
        requires keys { is_keys parts.layout ≡ false }
        requires sound { IsSound (top_in parts) (views children.items) }
        ensures { result ≡ array (top_in parts.entry) (views children.entry.items) }
    {
        ArrayView {
            parts,
            children,
            ends: Vec::new(alloc),
        }
    }

    /// A view of these keys of rows of the children.
    pub fn keyed(
        alloc: Global,
        parts: ViewParts<'a>,
        children: Vec<ArrayView<'a>>,
    ) -> Result<ArrayView<'a>, AllocError>
        requires sound { IsSound (top_in parts) (views children.items) }
        ensures { IfOk result (λ v. v ≡ array (top_in parts.entry) (views children.entry.items)) }
    {
        let ends = ends_of(alloc, children.as_slice())?;
        Ok(ArrayView {
            parts,
            children,
            ends,
        })
    }

    /// The same ranges of the input once more, and those of its children.
    #[cycle(copy)]
    pub fn try_clone(&self, alloc: Global) -> Result<ArrayView<'a>, AllocError>
        ensures { IfOk result (λ v. v ≡ self.now) }
    {
        let children = clone_each(alloc, self.children.as_slice())?;
        let parts = self.parts.try_clone(alloc)?;
        let mut ends = Vec::new(alloc);
        ends.extend_from_slice(self.ends.as_slice())?;
        Ok(ArrayView {
            parts,
            children,
            ends,
        })
    }

    /// How many rows there are.
    pub fn len(&self) -> usize
        ensures { result ≡ rows_of self.now }
    {
        self.parts.rows
    }

    /// Whether there is no row.
    pub fn is_empty(&self) -> bool
        ensures { result ≡ nat_eq (rows_of self.now) 0 }
    {
        self.parts.rows == 0
    }

    /// How the rows stand in the ranges.
    pub fn layout(&self) -> Layout
        ensures { result ≡ layout_of self.now }
    {
        self.parts.layout
    }

    /// Whether a row is null: each row of nulls alone is, and none of a union.
    pub fn is_null(&self, row: usize) -> bool
        requires { row < rows_of self.now }
        ensures { result ≡ not (is_valid self.now row) }
    {
        if self.parts.layout == Layout::Null {
            return true;
        }
        self.parts.is_unset(row)
    }

    /// How many children there are.
    pub fn child_count(&self) -> usize
        ensures { result ≡ count_of (children_of self.now) }
    {
        self.children.len()
    }

    /// The i-th child; of a dictionary, the i-th part of its values.
    pub fn child(&self, i: usize) -> &ArrayView<'a>
        requires { i < count_of (children_of self.now) }
        ensures child { child_at (children_of self.now) i ≡ Some result.now }

        // Each child of a struct has its rows.
        ensures rows { layout_of self.now ≡ Struct → rows_of result.now ≡ rows_of self.now }
    {
        &self.children[i]
    }
}

/// Some views once more.
#[cycle(copy)]
pub fn clone_each<'a>(
    alloc: Global,
    views: &[ArrayView<'a>],
) -> Result<Vec<ArrayView<'a>>, AllocError>
    ensures { IfOk result (λ v. v.items ≡ views.now) }
{
    let mut copies = Vec::new(alloc);
    for view in views {
        copies.push(view.try_clone(alloc)?)?;
    }
    Ok(copies)
}
