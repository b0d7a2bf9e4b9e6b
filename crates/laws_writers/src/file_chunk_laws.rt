//! What a writer of a file puts for a batch may be put into a file, so that the file means it. Each function's contract is a law, proved in `proofs/`.
ghost use Rattle.laws_writers.specs.FileChunkLaws.{ChunkGoesIntoFile};

/// A file goes on with a batch and what of its dictionaries is sent before it, where none of them is replaced (Arrow Columnar Format, "IPC File Format").
pub fn chunk_goes_into_file()
    ensures { ChunkGoesIntoFile }
{}
