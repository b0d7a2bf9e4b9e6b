//! The shelf over a folder.
use ipc_disk::{Disk, PlaceShelf};
use ipc_schema::{Got, Shelf, ShelfError, Source};
use ipc_system::FolderShelf;
use std::fs;
use std::test::Fail;

/// Three bytes of a file from the third on.
fn read(rt: &HostRuntime, path: &str) -> Result<[u8; 3], Fail> {
    let mut shelf = FolderShelf::new(rt);
    let mut file = shelf.open_file(path)?;
    let mut out = [0; 3];
    let got = file.read_at(2, &mut out);
    shelf.close_file(file);
    if got == Ok(Got::Full) {
        Ok(out)
    } else {
        Err("not read".into())
    }
}

#[test]
fn a_folder_opens_its_files(rt: HostRuntime) -> Result<(), Fail> {
    let path = "folder_shelf_test";
    fs::write(&rt, path, b"abcdef")?;
    assert!(rt; read(&rt, path)? == *b"cde");
    fs::remove_file(&rt, path)?;
    let mut shelf = FolderShelf::new(&rt);
    assert!(rt; shelf.open_file(path).err() == Some(ShelfError::Unknown));
    Ok(())
}

/// What stands in a file of which three bytes were read as a place, and written behind others.
fn changed(rt: &HostRuntime, path: &str) -> Result<Vec<u8>, Fail> {
    let mut shelf = FolderShelf::new(rt);
    let mut place = shelf.open_place(path)?;
    let mut out = [0; 3];
    place.read_at(2, &mut out)?;
    place.write_at(5, &out)?;
    shelf.close_place(path, place);
    Ok(fs::read(rt, path)?)
}

#[test]
fn a_place_of_a_folder_changes_its_file(rt: HostRuntime) -> Result<(), Fail> {
    let path = "folder_place_test";
    fs::write(&rt, path, b"abcdef")?;
    assert!(rt; changed(&rt, path)?.as_slice() == b"abcdecde".as_slice());
    fs::remove_file(&rt, path)?;
    let mut shelf = FolderShelf::new(&rt);
    assert!(rt; shelf.open_place(path).err() == Some(ShelfError::Unknown));
    Ok(())
}

#[test]
fn a_folder_opens_regular_files_alone(rt: HostRuntime) -> Result<(), Fail> {
    let mut shelf = FolderShelf::new(&rt);
    for name in [".", "/dev/null"] {
        assert!(rt; shelf.open_file(name).err() == Some(ShelfError::Failed));
        assert!(rt; shelf.open_place(name).err() == Some(ShelfError::Failed));
    }
    Ok(())
}
