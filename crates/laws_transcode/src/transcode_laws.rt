//! Files that are sent as streams: what is read of their dictionaries and blocks, and what is written of it. Each function's contract is a law, proved in `proofs/`.
ghost use Rattle.laws_transcode.specs.Laws.{AskedSchemaIsSendable, BatchIsSendable, BlockRefusesItsFile, DictionariesRefuseTheirFile, FileReplacesNone, LargeDictionariesRefuseTheirFile, PartOfFileMeansItsTable, SentMeans, SentOrTooLarge, WholeFileMeansItsTable};

/// Some fields of a schema that may be written, each once and in any order, are a schema that a stream takes.
pub fn asked_schema_is_sendable()
    ensures { AskedSchemaIsSendable }
{}

/// A batch that was read is sent where its message may be, and may be written there behind the values of its dictionaries (Arrow Columnar Format, "RecordBatch message").
pub fn batch_is_sendable()
    ensures { BatchIsSendable }
{}

/// The dictionaries of a file are read one behind another, and none replaces one before it (Arrow Columnar Format, "IPC File Format").
pub fn file_replaces_none()
    ensures { FileReplacesNone }
{}

/// A file of which all blocks were sent means, under its request, the written table (Arrow Columnar Format, "IPC File Format").
pub fn whole_file_means_its_table()
    ensures { WholeFileMeansItsTable }
{}

/// The first blocks of a file mean the table that is written of them.
pub fn part_of_file_means_its_table()
    ensures { PartOfFileMeansItsTable }
{}

/// A file is refused where a block behind those that were sent is.
pub fn block_refuses_its_file()
    ensures { BlockRefusesItsFile }
{}

/// A file is refused where its dictionaries are.
pub fn dictionaries_refuse_their_file()
    ensures { DictionariesRefuseTheirFile }
{}

/// A file is refused where a message of its dictionaries is too large and its first block is not refused.
pub fn large_dictionaries_refuse_their_file()
    ensures { LargeDictionariesRefuseTheirFile }
{}

/// A file that means a table is read to be sent as that table, or a message of it is too large.
pub fn sent_or_too_large()
    ensures { SentOrTooLarge }
{}

/// A file that is read to be sent is read as what it means.
pub fn sent_means()
    ensures { SentMeans }
{}
