//! Files that are sent as streams: what is read of their dictionaries and blocks, and what is written of it. Each function's contract is a law, proved in `proofs/`.
#![tactic(auto)]

mod transcode_laws;

pub use transcode_laws::{
    asked_schema_is_sendable, batch_is_sendable, block_refuses_its_file,
    dictionaries_refuse_their_file, file_replaces_none, large_dictionaries_refuse_their_file,
    part_of_file_means_its_table, sent_means, sent_or_too_large, whole_file_means_its_table,
};
