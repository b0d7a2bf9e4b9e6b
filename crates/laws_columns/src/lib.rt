//! Columns that were read of a file and are written to a stream. Each function's contract is a law, proved in `proofs/`.
#![tactic(auto)]

ghost use Rattle.laws_columns.specs.Laws.{FittingFieldsAreCarried, LengthsAreOfPieces, ReadBatchIsSendable, ReadBatchIsSent, RisingBatchIsAsked, RisingBatchRefuses, TopIsSent, WrittenAsColumn};

/// The lengths that are written of an array's parts are those of its buffers.
pub fn lengths_are_of_pieces()
    ensures { LengthsAreOfPieces }
{}

/// What is written of an array's parts is what the array is written with as a column.
pub fn written_as_column()
    ensures { WrittenAsColumn }
{}

/// What is to be written of a column that was read is what its parts are written with, laid anew where that is asked for (Arrow Columnar Format, "RecordBatch message").
pub fn top_is_sent()
    ensures { TopIsSent }
{}

/// A batch of columns that were read, of all or some each once and in any order, is sent where its message may be.
pub fn read_batch_is_sent()
    ensures { ReadBatchIsSent }
{}

/// Where its columns mean their cells as they are written, it may be written where its message may be sent.
pub fn read_batch_is_sendable()
    ensures { ReadBatchIsSendable }
{}

/// A batch that was read of columns by rising numbers is, in the order asked, the batch of the columns asked for.
pub fn rising_batch_is_asked()
    ensures { RisingBatchIsAsked }
{}

/// A batch of columns by rising numbers that is refused is refused so in whatever order its columns are asked for.
pub fn rising_batch_refuses()
    ensures { RisingBatchRefuses }
{}

/// Fields without floats and decimals of 256 bits, in a schema that may be written, are those that arrays are read of.
pub fn fitting_fields_are_carried()
    ensures { FittingFieldsAreCarried }
{}
