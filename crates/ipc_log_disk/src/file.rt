//! A file as a disk that is synced. It tells neither content nor images.
ghost use Rattle.std.specs.Prelude.{◌≡◌, ◌↔◌, ◌+◌, ◌<◌, None, ⊤, IfOk, IsTrue};

use crate::LogDisk;
use ipc_disk::{Disk, FileDisk};
use ipc_io::{Failed, Got, PutError, Source};
use std::fs::OpenFile;
use std::io;
use std::os::unix::fs::FileExt;

/// A file that is read, written at places and synced. It tells no content, so nothing follows from its images.
///
/// No call wants memory. A sync is `fsync` on the file. The folder is not synced: the file stood there before it was opened,
/// and nothing here makes or renames one.
#[derive(Drop)]
pub struct FileLogDisk<F> {
    disk: FileDisk<F>,
    // The same file once more, since the disk keeps its own to itself.
    file: F,
    failed_syncs: u64,
}

impl<F: Drop + OpenFile> FileLogDisk<F> {
    /// A disk over an open file, for which the system is asked for a second handle.
    ///
    /// # Errors
    ///
    /// What the system answers where it gives no second handle.
    pub fn new(file: F) -> io::Result<Self>
        ensures faults { IfOk result (λ d. (d.disk.faults ≡ 0) × (d.failed_syncs ≡ 0)) }
        ensures fetched { IfOk result (λ d. d.disk.fetched ≡ 0) }
    {
        let second = file.try_clone()?;
        Ok(FileLogDisk {
            disk: FileDisk::new(file),
            file: second,
            failed_syncs: 0,
        })
    }
}

impl<F> FileLogDisk<F> {
    /// Whether a call has failed.
    pub fn has_failed(&self) -> bool
        ensures { IsTrue result ↔ (0 < self.now.disk.faults + self.now.failed_syncs) }
    {
        self.disk.has_failed() || self.failed_syncs > 0
    }
}

impl<F: FileExt + OpenFile> LogDisk for FileLogDisk<F> {
    ghost content = { λ s. None };

    ghost faults = { λ s. s.disk.faults + s.failed_syncs };

    ghost wants = { λ s. 0 };

    ghost fetched = { λ s. s.disk.fetched };

    ghost moment = { λ s. 0 };

    ghost images = { λ s c. ⊤ };

    ghost images_since = { λ s t c. ⊤ };

    ghost content_is_image = { λ s b told. tt };

    ghost counts_now = { λ s t c le image. tt };

    ghost only_now = { λ s c since. tt };

    fn size(&mut self) -> Result<u64, Failed> {
        self.disk.size()
    }

    /// One read at the place, and more where the system gives less than was asked for.
    fn read_at(&mut self, at: u64, out: &mut [u8]) -> Result<Got, Failed> {
        self.disk.read_at(at, out)
    }

    /// One write at the place, and more where the system takes less. It fails where the bytes would end past 2^63 - 1.
    fn write_at(&mut self, at: u64, bytes: &[u8]) -> Result<(), PutError> {
        self.disk.write_at(at, bytes)
    }

    fn sync(&mut self) -> Result<(), PutError> {
        if self.file.sync_all().is_ok() {
            return Ok(());
        }
        self.failed_syncs = self.failed_syncs.saturating_add(1);
        Err(PutError::Failed)
    }
}
