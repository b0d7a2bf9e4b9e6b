//! A file with a column of a dictionary's values.
use crate::write_batch::batch_of_column;
use crate::write_file::file_of;
use arrow_ipc::array::{Array, dictionary_of_texts};
use arrow_ipc::io::MemorySink;
use arrow_ipc::io::ipc::IpcError;
use std::alloc::Global;

/// A file of one batch of one column, in memory: a key for each row, and the distinct names that the keys say.
pub(crate) fn file_of_colours(alloc: Global, names: &[&str]) -> Result<MemorySink, IpcError> {
    let column = Array::Dictionary(dictionary_of_texts(alloc, names)?);
    file_of(alloc, &batch_of_column(alloc, "colour", column)?)
}
