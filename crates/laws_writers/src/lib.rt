//! What a writer of batches puts into a stream or a file may be written, so that the stream or the file means it. Each function's contract is a law, proved in `proofs/`.
#![tactic(auto)]

mod chunk_laws;
mod file_chunk_laws;
mod stream_laws;

pub use chunk_laws::{chunk_is_put, chunk_may_be_written, schema_is_put};
pub use file_chunk_laws::chunk_goes_into_file;
pub use stream_laws::{what_is_sent_is_fixed, what_is_sent_is_known, what_is_sent_may_stand};
