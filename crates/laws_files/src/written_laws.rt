//! Files as they are written, and the law that a file of messages means its table. Each function's contract is a law, proved in `proofs/`.
ghost use Rattle.laws_files.specs.WrittenLaws.{AppendedFileMeansItsTable, CutFileMeansItsBatches, EndedFrontMeansItsTable, FileOfMessagesMeansItsTable, FrontGoesOn, MessagesMayBeAdded, MoreOfAFileMeansItsTable, OnlyBegunMeansNothing};

use crate::footer_reads_back;

/// A file of dictionaries' values and of batches means the table of its batches (Arrow Columnar Format, "IPC File Format").
pub fn file_of_messages_means_its_table()
    ensures { FileOfMessagesMeansItsTable }
{
    more_of_a_file_means_its_table()
}

/// A file of which a front means something, and that goes on with messages, means their batches too.
pub fn more_of_a_file_means_its_table()
    ensures { MoreOfAFileMeansItsTable }
{
    footer_reads_back()
}

/// The front of a file means no batches before any message.
pub fn only_begun_means_nothing()
    ensures { OnlyBegunMeansNothing }
{}

/// The front of a file that means something means the batches of messages behind it too.
pub fn front_goes_on()
    ensures { FrontGoesOn }
{}

/// A file that is ended behind a front that means something means that.
pub fn ended_front_means_its_table()
    ensures { EndedFrontMeansItsTable }
{
    footer_reads_back()
}

/// What may be written to a stream may be put into a file, but for a dictionary that replaces another (Arrow Columnar Format, "Dictionary Messages").
pub fn messages_may_be_added()
    ensures { MessagesMayBeAdded }
{}

/// A file that is cut behind its last block, and gone on with, means its batches still.
pub fn cut_file_means_its_batches()
    ensures { CutFileMeansItsBatches }
{}

/// A file that is cut behind its last block, gone on with and ended means its old table followed by the batches behind it.
pub fn appended_file_means_its_table()
    ensures { AppendedFileMeansItsTable }
{
    more_of_a_file_means_its_table()
}
