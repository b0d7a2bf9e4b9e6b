//! A file as a disk.
use ipc_disk::{Disk, DiskTail, FileDisk};
use ipc_schema::{Failed, Got, Sink, Source};
use std::fs::{self, File};
use std::io;
use std::test::Fail;

/// A file of ten bytes, made anew.
fn file_of_ten(rt: &HostRuntime, path: &str) -> io::Result<File> {
    fs::write(rt, path, b"abcdefghij")?;
    File::options().read(true).write(true).open(rt, path)
}

/// Whether bytes are put at the end of a disk.
fn puts_behind<D: Disk + Drop>(disk: D, bytes: &[u8]) -> bool {
    match DiskTail::new(disk) {
        Ok(mut tail) => tail.put(bytes).is_ok(),
        Err(_) => false,
    }
}

#[test]
fn a_file_is_a_disk(rt: HostRuntime) -> Result<(), Fail> {
    let path = "file_disk_test";
    let mut disk = FileDisk::new(file_of_ten(&rt, path)?);
    assert!(rt; disk.cut(3).is_ok() && puts_behind(&mut disk, b"kl"));
    assert!(rt; disk.write_at(0, b"Q").is_ok() && disk.size() == Ok(5));
    let mut out = [0; 5];
    assert!(rt; disk.read_at(0, &mut out) == Ok(Got::Full) && out == *b"Qbckl");
    assert!(rt; disk.read_at(1, &mut out) == Ok(Got::Short));
    assert!(rt; disk.read_at(u64::MAX, &mut out) == Err(Failed));
    assert!(rt; disk.cut(u64::MAX) == Err(Failed));
    drop(disk);
    fs::remove_file(&rt, path)?;
    Ok(())
}
