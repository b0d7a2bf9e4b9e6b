//! Readers of a record batch: of its body's buffers, and of its columns (Arrow Columnar Format, "RecordBatch message").

use crate::Body;
use arrow_spec::{FieldNode, IpcBuffer, MetadataVersion};
use ipc_schema::Source;
use std::alloc::Global;
use std::collections::VecDeque;

/// Reads the buffers of a body from its source, one after another.
#[derive(Drop)]
pub(crate) struct BufferReader<'a, S: Source> {
    pub alloc: Global,
    pub queue: &'a mut VecDeque<IpcBuffer>,
    pub source: &'a mut S,
    pub body: Body,
    pub is_little_endian: bool,
}

/// Reads the columns of a record batch, one after another, by its nodes, its buffers and its view counts.
#[derive(Drop)]
pub(crate) struct ColumnReader<'n, 'a, S: Source> {
    pub nodes: &'n mut VecDeque<FieldNode>,
    pub variadic: &'n mut VecDeque<i64>,
    pub buffers: BufferReader<'a, S>,
    pub version: MetadataVersion,
}
