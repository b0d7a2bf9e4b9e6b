//! The blocks of a file: where its messages stand (File.fbs, Block).
ghost use Rattle.std.specs.Prelude.{◌<◌, ◌^◌, All};
ghost use Rattle.ipc_messages.specs.Below.{IsNatural};

use arrow_spec::Block;

/// The blocks of messages one behind another, and the place behind them.
#[derive(Drop)]
pub(crate) struct PlacedMessages {
    pub blocks: Vec<Block>,
    pub end: u64,
    ghost natural: { All IsNatural blocks.items },
    ghost place: { end < 2 ^ 63 },
}

/// The blocks of a batch and of the dictionaries before it, and the place behind them.
#[derive(Drop)]
pub(crate) struct ChunkBlocks {
    pub dictionaries: Vec<Block>,
    pub batch: Block,
    pub end: u64,
    ghost natural: { All IsNatural dictionaries.items },
    ghost natural_batch: { IsNatural batch },
    ghost place: { end < 2 ^ 63 },
}

/// The blocks of a file's dictionaries and of its record batches, each list in the order in which they were put, and how many
/// bytes of the file were put.
#[derive(Drop)]
pub(crate) struct FileBlocks {
    pub dictionaries: Vec<Block>,
    pub records: Vec<Block>,
    pub end: u64,
    ghost natural_dictionaries: { All IsNatural dictionaries.items },
    ghost natural_records: { All IsNatural records.items },
    ghost place: { end < 2 ^ 63 },
}
