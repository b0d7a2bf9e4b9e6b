//! Arrow files in memory whose bytes are lent: record batches and dictionaries as views that copy no buffer (Arrow Columnar Format, "IPC File Format").

pub use ipc_mmap::{
    ArrayView, ChunkView, DictionaryViews, Layout, LentSource, Range, mmap_checked,
    mmap_dictionaries_checked,
};
