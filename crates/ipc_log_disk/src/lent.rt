//! A disk that is lent is a disk.
ghost use Rattle.std.specs.Prelude.{◌∷◌};

use crate::LogDisk;
use ipc_io::{Failed, Got, PutError};

impl<'a, D: LogDisk> LogDisk for &'a mut D {
    ghost content = { λ d. D.content d.now };

    ghost faults = { λ d. D.faults d.now };

    ghost wants = { λ d. D.wants d.now };

    ghost fetched = { λ d. D.fetched d.now };

    ghost moment = { λ d. D.moment d.now };

    ghost images = { λ d. D.images d.now };

    ghost images_since = { λ d. D.images_since d.now };

    ghost references = { λ d. d.ghost_name ∷ D.references d.now };

    ghost content_is_image = { λ d b told. D.content_is_image d.now b told };

    ghost counts_now = { λ d t c le image. D.counts_now d.now t c le image };

    ghost only_now = { λ d c since. D.only_now d.now c since };

    fn size(&mut self) -> Result<u64, Failed> {
        (**self).size()
    }

    fn read_at(&mut self, at: u64, out: &mut [u8]) -> Result<Got, Failed> {
        (**self).read_at(at, out)
    }

    fn write_at(&mut self, at: u64, bytes: &[u8]) -> Result<(), PutError> {
        (**self).write_at(at, bytes)
    }

    fn sync(&mut self) -> Result<(), PutError> {
        (**self).sync()
    }
}
