//! What a writer of batches puts into a stream may be written, so that the stream means it. Each function's contract is a law, proved in `proofs/`.
ghost use Rattle.laws_writers.specs.ChunkLaws.{ChunkIsPut, ChunkMayBeWritten, SchemaIsPut};

/// What is sent of a batch's dictionaries, and the batch behind it, may be written where the stream knows what was held before: its bytes are those of these messages, and the stream knows behind them what is held (Arrow Columnar Format, "Dictionary Messages").
pub fn chunk_may_be_written()
    ensures { ChunkMayBeWritten }
{}

/// The message of a regular schema may be written, and no batch stands behind it (Arrow Columnar Format, "Schema message").
pub fn schema_is_put()
    ensures { SchemaIsPut }
{}

/// Behind messages that are put, a batch may be put with what of its dictionaries is sent before it: the batches that these messages mean are those before it, and it (Arrow Columnar Format, "IPC Streaming Format").
pub fn chunk_is_put()
    ensures { ChunkIsPut }
{}
