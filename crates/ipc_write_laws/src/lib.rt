//! Columns of any kind as they are written, and the law that a stream of them means its table. Each function's contract is a law, proved in `proofs/`.
#![tactic(auto)]

ghost use Rattle.ipc_write_laws.specs.Laws.{BatchIsSent, BatchReadsBack, ColumnsAreSent, ColumnsReadBack, FrontOfMessagesMeansItsTable, OneMoreBatch, OneMoreMessage, PlainFieldsStay, StreamOfMessagesMeansItsTable, WrittenFrontMeansItsBareTable, WrittenFrontMeansItsTable, WrittenStreamMeansItsBareTable, WrittenStreamMeansItsTable};

/// Columns that stand one after another in a record batch are read as the cells that they mean (Arrow Columnar Format, "RecordBatch message").
pub fn columns_read_back()
    ensures { ColumnsReadBack }
{}

/// A batch of columns is read back from its tables and its body.
pub fn batch_reads_back()
    ensures { BatchReadsBack }
{}

/// A written stream of columns of any kinds is closed and means the written table (Arrow Columnar Format, "IPC Streaming Format").
pub fn written_stream_means_its_table()
    ensures { WrittenStreamMeansItsTable }
{}

/// Before its end mark a written stream is whole messages with nothing behind them, and means the written table.
pub fn written_front_means_its_table()
    ensures { WrittenFrontMeansItsTable }
{}

/// Of fields whose unions may leave their ids unstated a written stream means the table in which they are stated.
pub fn written_stream_means_its_bare_table()
    ensures { WrittenStreamMeansItsBareTable }
{}

/// So it does before its end mark.
pub fn written_front_means_its_bare_table()
    ensures { WrittenFrontMeansItsBareTable }
{}

/// A written stream grows by a batch's message at its end.
pub fn one_more_batch()
    ensures { OneMoreBatch }
{}

/// What is to be written of columns that were read is what the columns are written with, if so for each.
pub fn columns_are_sent()
    ensures { ColumnsAreSent }
{}

/// The message of a batch that was read is the message of its written columns.
pub fn batch_is_sent()
    ensures { BatchIsSent }
{}

/// Fields without dictionaries, whose unions state their ids, keep their kinds when they are written and read.
pub fn plain_fields_stay()
    ensures { PlainFieldsStay }
{}

/// A stream of dictionaries' values and of batches is closed and means the table of its batches (Arrow Columnar Format, "IPC Streaming Format", "Dictionary Messages").
pub fn stream_of_messages_means_its_table()
    ensures { StreamOfMessagesMeansItsTable }
{}

/// Before its end mark it is whole messages with nothing behind them, and means the same table.
pub fn front_of_messages_means_its_table()
    ensures { FrontOfMessagesMeansItsTable }
{}

/// Such a stream grows by a message at its end.
pub fn one_more_message()
    ensures { OneMoreMessage }
{}
