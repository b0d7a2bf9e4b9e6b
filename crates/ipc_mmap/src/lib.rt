//! Files whose bytes are lent: their dictionaries and record batches as views, tested as the copying reader tests them (Arrow Columnar Format, "IPC File Format").
#![tactic(auto)]

mod block;
mod chunk;
mod dictionaries;
mod source;

pub use chunk::{ChunkView, mmap_checked};
pub use dictionaries::mmap_dictionaries_checked;
pub use ipc_view::{ArrayView, DictionaryViews, Layout, Range};
pub use source::LentSource;
