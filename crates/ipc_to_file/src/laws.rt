//! What the bytes of a stream tell of what is read of them. Each function's contract is a law, proved in `proofs/`.
ghost use Rattle.ipc_to_file.specs.Laws.{ArraysAreOfTheBytes, FilesHaveNoLargeKey, LargeKeysAreOfTheBytes};

/// The arrays of a stream's record batches are told by its bytes.
pub fn arrays_are_of_the_bytes()
    ensures { ArraysAreOfTheBytes }
{}

/// So is whether some key that is not null would pass its type once the stream's dictionaries are made one list each.
pub fn large_keys_are_of_the_bytes()
    ensures { LargeKeysAreOfTheBytes }
{}

/// Of a stream that has such a key no file is made.
pub fn files_have_no_large_key()
    ensures { FilesHaveNoLargeKey }
{}
