//! Files that are read block by block: what they mean, where reading stops, and that what a reader gives is the file's table.
//! Each function's contract is a law, proved in `proofs/`.
#![tactic(auto)]

ghost use Rattle.laws_reading.specs.Laws.{BlocksMeanTheirTable, OneMoreBlock, RefusedBlockStopsReading, RefusedDictionariesStopReading};
ghost use Rattle.laws_reading.specs.Laws.{EachReadIsOfItsBlock, FirstReadsAreTheirTable, GivenDictionariesAreTheFiles, OneMoreRead};
ghost use Rattle.laws_reading.specs.Laws.{ReadsAreTheTable, RefusedFileStopsReading, RefusedReadStopsReading, TableIsRead};
ghost use Rattle.laws_reading.specs.ProjectionLaws.{ProjectedBatchIsAsked, ProjectionMayBeApplied};

/// A block more adds its batch.
pub fn one_more_block()
    ensures { OneMoreBlock }
{}

/// Blocks that were read mean the table of their batches.
pub fn blocks_mean_their_table()
    ensures { BlocksMeanTheirTable }
{}

/// A block that is refused stops the reading of its file.
pub fn refused_block_stops_reading()
    ensures { RefusedBlockStopsReading }
{}

/// So do dictionaries that are refused.
pub fn refused_dictionaries_stop_reading()
    ensures { RefusedDictionariesStopReading }
{}

/// The batches that a reader gives of a file's first blocks are those of the table that these mean (Arrow Columnar Format, "IPC File Format").
pub fn first_reads_are_their_table()
    ensures { FirstReadsAreTheirTable }
{}

/// The batches that a reader gives of a file, to its last block, are those of the table that the file means.
pub fn reads_are_the_table()
    ensures { ReadsAreTheTable }
{}

/// The batches of the table that a file means are those that a reader gives of it.
pub fn table_is_read()
    ensures { TableIsRead }
{}

/// A reader gives one batch a block, and each is what a call at its block gives.
pub fn each_read_is_of_its_block()
    ensures { EachReadIsOfItsBlock }
{}

/// A call more, at the block behind those that were read, adds its batch.
pub fn one_more_read()
    ensures { OneMoreRead }
{}

/// A call that is refused behind others stops the reading of its file.
pub fn refused_read_stops_reading()
    ensures { RefusedReadStopsReading }
{}

/// What refuses a file whose dictionaries were read is what a call of its reader is refused for.
pub fn refused_file_stops_reading()
    ensures { RefusedFileStopsReading }
{}

/// The dictionary blocks that a caller gives say what a file's do, where no number of them is negative.
pub fn given_dictionaries_are_the_files()
    ensures { GivenDictionariesAreTheFiles }
{}

/// A projection may be applied to a batch of the fields that are read for it.
pub fn projection_may_be_applied()
    ensures { ProjectionMayBeApplied }
{}

/// What a projection is applied to becomes the fields and the columns that are asked for, in the order asked.
pub fn projected_batch_is_asked()
    ensures { ProjectedBatchIsAsked }
{}
