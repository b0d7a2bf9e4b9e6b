//! The table of a file as CSV, which polars-arrow has elsewhere.

pub use ipc_csv::to_csv;
