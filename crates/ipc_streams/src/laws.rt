//! What follows from the definitions of what a stream means. Each function's contract is a law, proved in `proofs/`.
ghost use Rattle.ipc_streams.specs.Laws.{ArraysAreOfTheStream, NextIsOfTheStream, NextsAreTheStream};

/// What stands next in a stream, behind the dictionaries before it, is what the stream goes on with; a refusal of it
/// refuses the stream, but for too many dictionaries.
pub fn a_next_is_of_the_stream()
    ensures { NextIsOfTheStream }
{}

/// The record batches that stand next, one after another, are those of the table that the stream means.
pub fn nexts_are_the_stream()
    ensures { NextsAreTheStream }
{}

/// The arrays of a stream's record batches, under what is held before it, are one list.
pub fn arrays_are_of_the_stream()
    ensures { ArraysAreOfTheStream }
{}
