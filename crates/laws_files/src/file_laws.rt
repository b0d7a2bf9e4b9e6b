//! What follows from the definitions of what a file means. Each function's contract is a law, proved in `proofs/`.
ghost use Rattle.laws_files.specs.FileLaws.{DependsOnFetched, DependsOnNeeded, FetchedWithinCost, FooterReadsBack, ProjectsAndCuts, RefusedAsReadOrTooLarge, TooLargeWhereAMessageIs};

/// What a whole file means gives what it means under distinct columns and a limit.
pub fn projects_and_cuts()
    ensures { ProjectsAndCuts }
{}

/// What a file means under a request depends on the parts that the request needs.
pub fn depends_on_needed()
    ensures { DependsOnNeeded }
{}

/// A file that means a table is too large to be sent exactly where a message of it may not be sent (Arrow Columnar Format, "Encapsulated message format").
pub fn too_large_where_a_message_is()
    ensures { TooLargeWhereAMessageIs }
{}

/// A footer is read back as it is written: its schema, its blocks and its pairs (Arrow Columnar Format, "IPC File Format").
pub fn footer_reads_back()
    ensures { FooterReadsBack }
{}

/// What is fetched under a request, of which nothing is read for no rows, is no longer than what the request costs.
pub fn fetched_within_cost()
    ensures { FetchedWithinCost }
{}

/// What refuses a file that is to be sent refuses it where it is read, or is a message of its first blocks that may not be sent.
pub fn refused_as_read_or_too_large()
    ensures { RefusedAsReadOrTooLarge }
{}

/// What a file means under a request depends on what is fetched: nothing but its message of a batch of which no rows are read.
pub fn depends_on_fetched()
    ensures { DependsOnFetched }
{}
