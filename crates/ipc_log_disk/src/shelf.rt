//! A shelf of vaults over memory.
ghost use Rattle.std.specs.Prelude.{◌≡◌, None, Some, option_map};
ghost use Rattle.ipc_disk.specs.Shelves.{held_in};
ghost use Rattle.ipc_log_disk.specs.Histories.{images_in};

use crate::{History, MemoryLogDisk, VaultShelf};
use ipc_disk::{MemoryDisk, MemoryShelf, PlaceShelf};
use ipc_io::{MemorySource, Shelf, ShelfError};
use std::alloc::Global;

/// A shelf over memory whose places are vaults too. A vault fails where a place would. The record of the vault that was closed last is kept.
#[derive(Drop)]
pub struct MemoryVaultShelf {
    alloc: Global,
    shelf: MemoryShelf,
    last: Option<History>,
}

impl MemoryVaultShelf {
    /// Takes its parts as they are: no copy, no memory.
    pub fn new(alloc: Global, shelf: MemoryShelf) -> Self
        ensures shelf { result.shelf ≡ shelf }
        ensures last { result.last ≡ None }
    {
        MemoryVaultShelf {
            alloc,
            shelf,
            last: None,
        }
    }

    /// The bytes under a name.
    pub fn bytes(&self, name: &str) -> Option<&[u8]>
        ensures { option_map (λ b. b.now) result ≡ held_in self.now.shelf.entries name.now }
    {
        self.shelf.bytes(name)
    }

    /// The record of the vault that was closed last.
    pub fn last(&self) -> Option<&History>
        ensures { option_map (λ h. h.now) result ≡ self.now.last }
    {
        self.last.as_ref()
    }
}

impl Shelf for MemoryVaultShelf {
    type File = MemorySource;

    ghost held = { λ s. Some (held_in s.shelf.entries) };

    ghost faults = { λ s. s.shelf.calls.faults };

    fn open_file(&mut self, name: &str) -> Result<MemorySource, ShelfError> {
        self.shelf.open_file(name)
    }

    fn close_file(&mut self, file: MemorySource) {
        self.shelf.close_file(file)
    }
}

impl PlaceShelf for MemoryVaultShelf {
    type Place = MemoryDisk;

    fn open_place(&mut self, name: &str) -> Result<MemoryDisk, ShelfError> {
        self.shelf.open_place(name)
    }

    fn close_place(&mut self, name: &str, place: MemoryDisk) {
        self.shelf.close_place(name, place)
    }
}

impl VaultShelf for MemoryVaultShelf {
    type Vault = MemoryLogDisk;

    ghost left = { λ s. images_in s.last };

    /// Opens a place, and copies its bytes.
    fn open_vault(&mut self, name: &str) -> Result<MemoryLogDisk, ShelfError> {
        let place = self.shelf.open_place(name)?;
        MemoryLogDisk::new(self.alloc, place).map_err(|_| ShelfError::Memory)
    }

    fn close_vault(&mut self, name: &str, vault: MemoryLogDisk) {
        let (disk, history) = vault.into_parts();
        self.shelf.close_place(name, disk);
        self.last = Some(history);
    }
}
