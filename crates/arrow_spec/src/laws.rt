//! What follows from the definitions: each function's contract is a law, proved in `proofs/`.
ghost use Rattle.arrow_spec.specs.Laws.{BatchMessageReadsBack, DictionaryMessageReadsBack, FramedMessageIsNext, LayoutReadsBack, NumberedMayBeWritten, ReadSchemaMayBeWritten, RegularMayBeWritten, RegularReadsBack, SchemaBytesReadBack, SchemaMessageReadsBack, StreamFuelIsEnough, StreamSchemaReadsBack};

/// A flatbuffer that is laid out is read back, whatever stands behind it.
pub fn layout_reads_back()
    ensures { LayoutReadsBack }
{}

/// A framed message is the next message of the bytes that begin with it.
pub fn framed_message_is_next()
    ensures { FramedMessageIsNext }
{}

/// A schema is read back from its framed message, of all types, with its ids and its byte order.
pub fn schema_message_reads_back()
    ensures { SchemaMessageReadsBack }
{}

/// A schema message's own bytes, without prefix and padding, are read as the schema.
pub fn schema_bytes_read_back()
    ensures { SchemaBytesReadBack }
{}

/// A schema that may be written may be written with its dictionaries numbered from 0 in preorder.
pub fn numbered_may_be_written()
    ensures { NumberedMayBeWritten }
{}

/// A regular schema is read back from its message's bytes, all but the reserved keys among its fields' pairs.
pub fn regular_reads_back()
    ensures { RegularReadsBack }
{}

/// The schema message of a stream of a regular schema is read back with the dictionaries numbered from 0 in preorder.
pub fn stream_schema_reads_back()
    ensures { StreamSchemaReadsBack }
{}

/// A schema that is read of bytes may be written.
pub fn read_schema_may_be_written()
    ensures { ReadSchemaMayBeWritten }
{}

/// A regular schema that the format's tables can say may be written.
pub fn regular_may_be_written()
    ensures { RegularMayBeWritten }
{}

/// The message of a record batch of any types is read back: its nodes, buffers and variadic counts.
pub fn batch_message_reads_back()
    ensures { BatchMessageReadsBack }
{}

/// The message of a dictionary batch of any types is read back.
pub fn dictionary_message_reads_back()
    ensures { DictionaryMessageReadsBack }
{}

/// A stream is read to its end: each message takes at least four bytes.
pub fn stream_fuel_is_enough()
    ensures { StreamFuelIsEnough }
{}
