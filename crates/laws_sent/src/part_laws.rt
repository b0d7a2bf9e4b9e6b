//! The parts of a file's dictionaries as they are read. Each function's contract is a law, proved in `proofs/`.
ghost use Rattle.laws_sent.specs.PartLaws.{ColumnsAreOfFields, ColumnsAreReadUnder, HeldPartsAreRead, NextPartIsRead, NoPartsAreRead, NothingIsRead, OneMorePartIsRead, OrderIsOfAsked, PartsAreOfAsked};

/// Before the first dictionary message is read there are no parts.
pub fn no_parts_are_read()
    ensures { NoPartsAreRead }
{}

/// The values of a dictionary block are the next part, sound and with what is written of them, as the messages before it were read (Arrow Columnar Format, "Dictionary Messages").
pub fn one_more_part_is_read()
    ensures { OneMorePartIsRead }
{}

/// Parts of the dictionaries in a schema are parts of those in the columns that are asked for.
pub fn parts_are_of_asked()
    ensures { PartsAreOfAsked }
{}

/// Before the first dictionary block nothing is held.
pub fn nothing_is_read()
    ensures { NothingIsRead }
{}

/// The values of a dictionary block are the next part, which was read under those before it.
pub fn next_part_is_read()
    ensures { NextPartIsRead }
{}

/// What is held behind dictionary blocks are their parts, in order.
pub fn held_parts_are_read()
    ensures { HeldPartsAreRead }
{}

/// Parts that were read in order are so for the columns that are asked for.
pub fn order_is_of_asked()
    ensures { OrderIsOfAsked }
{}

/// Columns have the dictionaries that were held as they were read.
pub fn columns_are_read_under()
    ensures { ColumnsAreReadUnder }
{}

/// Columns are of their fields' kinds.
pub fn columns_are_of_fields()
    ensures { ColumnsAreOfFields }
{}
