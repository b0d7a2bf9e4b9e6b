//! What a writer sends of dictionaries that were read of a file (Arrow Columnar Format, "Dictionary Messages"). Each function's contract is a law,
//! proved in `proofs/`.
ghost use Rattle.laws_sent.specs.DictionaryLaws.{ColumnsAreRight, FileDictionariesAreSent, NoneIsReplaced};

/// All that is to be sent of a file's dictionaries is sent before the first batch, and nothing before the others.
pub fn file_dictionaries_are_sent()
    ensures { FileDictionariesAreSent }
{}

/// Columns of the kinds of a stream's fields have no fault.
pub fn columns_are_right()
    ensures { ColumnsAreRight }
{}

/// Under ids that count from 0 in preorder no dictionary of such columns is refused for values that the batch has fixed already.
pub fn none_is_replaced()
    ensures { NoneIsReplaced }
{}
