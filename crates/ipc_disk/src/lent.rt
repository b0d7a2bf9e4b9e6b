//! A disk that is lent is a disk.
use crate::Disk;
use ipc_io::{Failed, PutError};

impl<'a, D: Disk> Disk for &'a mut D {
    ghost wants = { λ d. D.wants d.now };

    fn write_at(&mut self, at: u64, bytes: &[u8]) -> Result<(), PutError> {
        (**self).write_at(at, bytes)
    }

    fn cut(&mut self, count: u64) -> Result<(), Failed> {
        (**self).cut(count)
    }
}
