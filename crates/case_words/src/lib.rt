//! Cases: files of calls with their answers, and the arrays, batches and tables that the words of the calls say.
//!
//! A line of a file is a call with its answer behind ` =>`; `+ ` and more words of the call before; `= ` and a line of an answer of
//! several lines; `== ` and the title of a case, at which what stood before is forgotten; or behind `#` nothing. A program that makes
//! the calls has a type that is a `Case` and calls `run_files`.
#![tactic(auto)]

mod arrays;
mod batches;
mod cases;
mod kept;
mod made;
mod nested;
mod shown;
mod tables;

pub use arrays::{array_of, bitmap, bytes_buffer, items};
pub use batches::batch_of;
pub use case_types::{
    Answer, Fault, add_bytes, bytes, bytes_of, counts, fields_of, halves, hex_bytes, numbers,
    parts, repeat, rest, schema_of, type_of, word,
};
pub use cases::{Case, run_files, text_of};
pub use kept::{keep, part, say_same};
pub use shown::{is_valid_at, say_bytes, say_cells, say_counts, say_lines, say_one, say_rows};
pub use tables::{Tables, say_body, say_buffers};
