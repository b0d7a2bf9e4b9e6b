//! The tables of a record batch whose body stands in the input, and places in them (Arrow Columnar Format, "RecordBatch message").
ghost use Rattle.view_types.specs.Ranges.{Lies};

use crate::dictionaries::DictionaryViews;
use arrow_spec::{FieldNode, IpcBuffer, MetadataVersion};
use std::alloc::Global;
use view_types::Range;

/// The tables of a record batch, where its body stands in the input, and the dictionaries under which it is read.
#[derive(Drop)]
pub(crate) struct BatchTables<'h, 'a> {
    pub alloc: Global,
    pub nodes: &'h [FieldNode],
    pub buffers: &'h [IpcBuffer],
    pub variadic: &'h [i64],
    pub version: MetadataVersion,
    pub is_big_endian: bool,
    pub input: &'a [u8],
    pub body: Range,
    pub dictionaries: &'h DictionaryViews<'a>,
    ghost lies: { Lies input.now body },
}

/// Where an array's node, its first buffer and its first view count stand. Buffers are numbered in 128 bits: a damaged count of views may pass any number of them.
#[derive(Clone, Copy)]
pub(crate) struct ArrayPlace {
    pub node: usize,
    pub buffer: u128,
    pub view: usize,
}

/// The rows of an array's children: the same for each, or for each as many as its node says.
#[derive(Clone, Copy)]
pub(crate) enum ChildRows {
    Same(usize),
    Stated,
}
