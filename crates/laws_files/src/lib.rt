//! What the bytes of an Arrow file mean within a request, and what files that are written or go on mean. Each function's contract is a law, proved in `proofs/`.
#![tactic(auto)]

mod file_laws;
mod written_laws;

pub use file_laws::{
    depends_on_fetched, depends_on_needed, fetched_within_cost, footer_reads_back,
    projects_and_cuts, refused_as_read_or_too_large, too_large_where_a_message_is,
};
pub use written_laws::{
    appended_file_means_its_table, cut_file_means_its_batches, ended_front_means_its_table,
    file_of_messages_means_its_table, front_goes_on, messages_may_be_added,
    more_of_a_file_means_its_table, only_begun_means_nothing,
};
