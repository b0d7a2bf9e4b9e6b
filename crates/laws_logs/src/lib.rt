//! A log of records as a table: what lifts the theorem on records to tables.
#![tactic(auto)]

ghost use Rattle.laws_logs.specs.Tables.{CrashedAppend, CrashedRun, MoreRecordsAreTable, OneBatchMore, OneMeaning, RecordsAreTable, SameTable};

use ipc_log_disk::LogDisk;

/// Bytes mean one table at most.
pub fn means_one_table()
    ensures { OneMeaning }
{}

/// One record more is one batch more.
pub fn record_is_batch()
    ensures { OneBatchMore }
{}

/// The same records are the same table.
pub fn same_records_same_table()
    ensures { SameTable }
{}

/// A disk that holds the records of a table holds the table.
pub fn records_are_table<D: LogDisk>(_disk: &D)
    ensures { RecordsAreTable (D.content _disk.now) (D.images _disk.now) }
{}

/// A disk that holds one record more holds the table with one batch more.
pub fn more_records_are_table<D: LogDisk>(_disk: &D)
    ensures { MoreRecordsAreTable (D.content _disk.now) (D.images _disk.now) }
{}

/// A crash in an append leaves the table from before, or it with the batch.
pub fn crash_in_append()
    ensures { CrashedAppend }
{}

/// A crash in a run of appends leaves the table from before, and some of the batches, from the first on.
pub fn crash_in_run()
    ensures { CrashedRun }
{}
