//! Files in memory whose columns are looked at where they lie, or read, for `bench/views`.
use crate::sum_lent::{Count, count_lent};
use crate::sums::sum_of_array;
use arrow_ipc::io::ipc::IpcError;
use arrow_ipc::io::ipc::read::{FileReader, read_file_metadata};
use arrow_ipc::mmap::LentSource;
use arrow_ipc::record_batch::RecordBatch;
use std::alloc::Global;
use std::fs;

fn count_batch(batch: &RecordBatch, count: Count) -> i128 {
    if count == Count::Rows {
        return batch.height() as i128;
    }
    match batch.arrays().first() {
        Some(array) => sum_of_array(array),
        None => 0,
    }
}

/// What is counted of all record batches of a file, which are read one after another.
fn count_read(alloc: Global, file: &[u8], count: Count) -> Result<i128, IpcError> {
    let mut source = LentSource::new(file);
    let metadata = read_file_metadata(alloc, &mut source)?;
    let reader = FileReader::new(alloc, source, metadata, None, None)?;
    let mut found = 0_i128;
    for read in reader {
        let batch = read?;
        found = found.wrapping_add(count_batch(&batch, count));
    }
    Ok(found)
}

/// Prints what a word asks for of a file: its rows, or the sum of its first column; behind `load` nothing.
pub(crate) fn count_file(rt: &HostRuntime, word: &str, name: &str) -> Result<(), &'static str> {
    let Ok(file) = fs::read(rt, name) else {
        return Err("no file can be read");
    };
    let found = match word {
        "load" => return Ok(()),
        "look" => count_lent(rt.alloc(), &file, Count::Rows),
        "sum-views" => count_lent(rt.alloc(), &file, Count::Cells),
        "read" => count_read(rt.alloc(), &file, Count::Rows),
        _ => count_read(rt.alloc(), &file, Count::Cells),
    };
    match found {
        Ok(number) => {
            let _ = println!(rt; "{number}");
            Ok(())
        }
        Err(error) => Err(error.name()),
    }
}
