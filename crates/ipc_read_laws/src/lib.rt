//! Columns of any kind as they are read, and the laws of their cells. Each function's contract is a law, proved in `proofs/`.
#![tactic(auto)]

ghost use Rattle.ipc_read_laws.specs.Laws.{CellsAreRead, FaultsAreFound, FaultsAreTold, KeysAreFound, PartsAreSound, WrittenAsSent};

/// What is wrong with an array without children is told by its layout, and what is wrong with its buffers is wrong with it.
pub fn faults_are_told()
    ensures { FaultsAreTold }
{}

/// What is wrong with an array without children, but for its node and buffers, is found in the parts that are read.
pub fn faults_are_found()
    ensures { FaultsAreFound }
{}

/// What is wrong with a dictionary, but for its node and buffers, is found in its keys.
pub fn keys_are_found()
    ensures { KeysAreFound }
{}

/// The parts of an array that is not refused are of its kind and of its rows, and make an array.
pub fn parts_are_sound()
    ensures { PartsAreSound }
{}

/// Their cells are those that the record batch has.
pub fn cells_are_read()
    ensures { CellsAreRead }
{}

/// The node, the lengths of the buffers and the view counts that are written of them are those that the record batch says.
pub fn written_as_sent()
    ensures { WrittenAsSent }
{}
