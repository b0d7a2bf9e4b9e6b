//! The shelf over a folder of regular files. Files tell no content.
ghost use Rattle.std.specs.Prelude.{◌≡◌, ◌↔◌, ◌≤◌, IsOk, None, OnOk, ⊤};
ghost use Rattle.std.specs.Fs.{IsFile, file_type};
ghost use Rattle.ipc_io.specs.Outside.{OpenHasCause, Rose};

use ipc_disk::{FileDisk, PlaceShelf};
use ipc_io::{Shelf, ShelfError};
use ipc_log_disk::{FileLogDisk, VaultShelf};
use std::fs::{self, Metadata, OpenFile, OpenOptions};
use std::io::{self, ErrorKind};
use std::os::unix::fs::FileExt;
use std::rt::Files;

/// The regular files of the current folder, by their paths from there. What stands under a name is not told. Where no regular file stands under it (a folder, a pipe, a device), the opening fails.
#[derive(Drop)]
pub struct FolderShelf<'a, R> {
    rt: &'a R,
    faults: u64,
}

impl<'a, R> FolderShelf<'a, R> {
    /// Takes no memory.
    pub fn new(rt: &'a R) -> Self
        ensures { result.faults ≡ 0 }
    {
        FolderShelf { rt, faults: 0 }
    }

    // Why nothing was opened, by what the system answered.
    fn refused(&mut self, error: io::Error) -> ShelfError
        ensures later { self.old.faults ≤ self.new.faults }
        ensures failed { result ≡ ShelfError.Failed → Rose self.old.faults self.new.faults }
        ensures unknown { result ≡ ShelfError.Unknown → self.new.faults ≡ self.old.faults }
    {
        match error.kind() {
            ErrorKind::NotFound => ShelfError::Unknown,
            ErrorKind::OutOfMemory => ShelfError::Memory,
            _ => {
                self.faults = self.faults.saturating_add(1);
                ShelfError::Failed
            }
        }
    }

    // What the system answered to an opening.
    fn opened<T>(&mut self, answer: io::Result<T>) -> Result<T, ShelfError>
        ensures cause { OpenHasCause self.old.faults self.new.faults result }
        ensures kept { OnOk result (self.new.faults ≡ self.old.faults) }
    {
        match answer {
            Ok(file) => Ok(file),
            Err(error) => Err(self.refused(error)),
        }
    }
}

// An error for what is no regular file, and for nothing else.
fn check_regular(metadata: &Metadata) -> io::Result<()>
    ensures { IsOk result ↔ IsFile (file_type metadata.now) }
{
    if metadata.is_file() {
        return Ok(());
    }
    Err(io::Error::from(ErrorKind::InvalidInput))
}

// Nothing but a regular file is opened, since a pipe would be waited for. What was opened is asked too, as the name may have come to stand for something else in between.
fn open_regular<R: Files>(rt: &R, options: &OpenOptions, name: &str) -> io::Result<R::File> {
    check_regular(&fs::metadata(rt, name)?)?;
    let file = options.open(rt, name)?;
    check_regular(&file.metadata()?)?;
    Ok(file)
}

impl<'a, R: Files> Shelf for FolderShelf<'a, R>
where
    R::File: FileExt,
{
    type File = FileDisk<R::File>;

    ghost held = { λ s. None };

    ghost faults = { λ s. s.faults };

    /// `Unknown` where the system finds no file under the path.
    fn open_file(&mut self, name: &str) -> Result<FileDisk<R::File>, ShelfError> {
        let answer = open_regular(self.rt, OpenOptions::new().read(true), name);
        let file = self.opened(answer)?;
        Ok(FileDisk::new(file))
    }

    fn close_file(&mut self, file: FileDisk<R::File>) {
        if file.has_failed() {
            self.faults = self.faults.saturating_add(1);
        }
    }
}

impl<'a, R: Files> PlaceShelf for FolderShelf<'a, R>
where
    R::File: FileExt,
{
    type Place = FileDisk<R::File>;

    /// `Unknown` where the system finds no file under the path: none is made.
    fn open_place(&mut self, name: &str) -> Result<FileDisk<R::File>, ShelfError> {
        let answer = open_regular(self.rt, OpenOptions::new().read(true).write(true), name);
        let file = self.opened(answer)?;
        Ok(FileDisk::new(file))
    }

    /// What the place wrote stands in the file.
    fn close_place(&mut self, _name: &str, place: FileDisk<R::File>) {
        if place.has_failed() {
            self.faults = self.faults.saturating_add(1);
        }
    }
}

impl<'a, R: Files> VaultShelf for FolderShelf<'a, R>
where
    R::File: FileExt,
{
    type Vault = FileLogDisk<R::File>;

    ghost left = { λ s c. ⊤ };

    /// `Unknown` where the system finds no file under the path: none is made, so the folder needs no sync.
    fn open_vault(&mut self, name: &str) -> Result<FileLogDisk<R::File>, ShelfError> {
        let answer = open_regular(self.rt, OpenOptions::new().read(true).write(true), name);
        let file = self.opened(answer)?;
        match FileLogDisk::new(file) {
            Ok(vault) => Ok(vault),
            Err(error) => Err(self.refused(error)),
        }
    }

    /// What the vault wrote stands in the file.
    fn close_vault(&mut self, _name: &str, vault: FileLogDisk<R::File>) {
        if vault.has_failed() {
            self.faults = self.faults.saturating_add(1);
        }
    }
}
