//! What follows from the definitions: each function's contract is a law, proved in `proofs/`.
ghost use Rattle.schema_writer.specs.Laws.{WrittenSchemaReadsBack};

/// What is written of a regular schema is read back as it was, with the ids of its IPC fields and its byte order.
pub fn written_schema_reads_back()
    ensures { WrittenSchemaReadsBack }
{}
