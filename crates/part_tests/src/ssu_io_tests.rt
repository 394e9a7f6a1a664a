//! Sources, sinks and shelves, in memory and over files, and the names of files.

use crate::check::same;
use crate::paths::path_of;
use ssu_io::{
    Failed, FolderShelf, MemShelf, MemSink, MemSource, NoMemory, RealSink, RealSource, Shelf,
    ShelfError, Sink, Source, StdSink, file_name, is_file_name,
};
use std::alloc::Global;
use std::fs;
use std::test::Fail;

/// Takes once with room for `room` bytes, 4 at most.
fn taken<S: Source>(alloc: Global, source: &mut S, room: usize) -> Result<Vec<u8>, Fail> {
    let mut buf = [0u8; 4];
    let n = source.take(&mut buf[..room.clamp(1, 4)])?;
    Ok(buf[..n].to_vec(alloc)?)
}

#[test]
fn a_source_in_memory_gives_its_bytes_in_steps(rt: HostRuntime) -> Result<(), Fail> {
    let alloc = rt.alloc();
    let bytes = vec![in alloc; 1, 2, 3, 4, 5]?;
    let mut source = MemSource::new(bytes, 3, vec![in alloc; 2]?);
    same(
        &rt,
        &taken(alloc, &mut source, 2)?.as_slice(),
        &[1, 2].as_slice(),
    );
    let mut buf = [0u8; 4];
    same(&rt, &source.take(&mut buf), &Err(Failed));
    same(
        &rt,
        &taken(alloc, &mut source, 4)?.as_slice(),
        &[3, 4, 5].as_slice(),
    );
    same(&rt, &source.take(&mut buf), &Ok(0));
    Ok(())
}

#[test]
fn a_sink_in_memory_keeps_the_pieces(rt: HostRuntime) -> Result<(), Fail> {
    let alloc = rt.alloc();
    let mut sink = MemSink::new(alloc, vec![in alloc; 2]?);
    same(&rt, &sink.put(&[1, 2]), &Ok(()));
    same(&rt, &sink.put(&[9]), &Err(Failed));
    same(&rt, &sink.put(&[3]), &Ok(()));
    same(&rt, &sink.bytes(), &[1, 2, 3].as_slice());
    assert!(rt; !sink.is_short());
    same(&rt, &sink.into_bytes().as_slice(), &[1, 2, 3].as_slice());
    Ok(())
}

fn pushed(alloc: Global, n: u8) -> Result<Vec<u8>, NoMemory> {
    let mut bytes = Vec::with_capacity(alloc, 1)?;
    bytes.push(n)?;
    Ok(bytes)
}

#[test]
fn both_errors_of_memory_become_one(rt: HostRuntime) -> Result<(), Fail> {
    same(&rt, &pushed(rt.alloc(), 7)?.as_slice(), &[7].as_slice());
    Ok(())
}

#[test]
fn a_file_is_made_at_the_first_byte_and_read_back(rt: HostRuntime) -> Result<(), Fail> {
    let alloc = rt.alloc();
    let path = path_of(&rt, "file")?;
    let mut sink = RealSink::new(&rt, path.clone()?);
    same(&rt, &sink.put(&[]), &Ok(()));
    let mut source = RealSource::new(&rt, path.clone()?);
    let mut buf = [0u8; 4];
    same(&rt, &source.take(&mut buf), &Err(Failed));
    same(&rt, &sink.put(&[1, 2]), &Ok(()));
    same(&rt, &sink.put(&[3, 4, 5]), &Ok(()));
    same(
        &rt,
        &taken(alloc, &mut source, 3)?.as_slice(),
        &[1, 2, 3].as_slice(),
    );
    same(
        &rt,
        &taken(alloc, &mut source, 4)?.as_slice(),
        &[4, 5].as_slice(),
    );
    same(&rt, &source.take(&mut buf), &Ok(0));
    fs::remove_file(&rt, &path)?;
    Ok(())
}

/// What a thousand takes give, joined.
fn read_whole<S: Source>(alloc: Global, source: &mut S) -> Result<Vec<u8>, Fail> {
    let mut read = Vec::new(alloc);
    let mut buf = [0u8; 100];
    for _ in 0..1000usize {
        let n = source.take(&mut buf)?;
        read.extend_from_slice(&buf[..n])?;
    }
    Ok(read)
}

#[test]
fn a_long_file_is_written_and_read_back_byte_for_byte(rt: HostRuntime) -> Result<(), Fail> {
    let alloc = rt.alloc();
    let path = path_of(&rt, "long_file")?;
    let mut sink = RealSink::new(&rt, path.clone()?);
    // 200 pieces of 188 bytes, more than a source reads at once
    for n in 0..200u8 {
        same(&rt, &sink.put(&[n; 188]), &Ok(()));
    }
    let bytes = fs::read(&rt, &path)?;
    same(&rt, &bytes.len(), &(200 * 188));
    let read = read_whole(alloc, &mut RealSource::new(&rt, path.clone()?))?;
    for (at, byte) in read.iter().enumerate() {
        same(&rt, &usize::from(*byte), &(at / 188));
    }
    assert!(rt; read == bytes);
    fs::remove_file(&rt, &path)?;
    Ok(())
}

#[test]
fn standard_output_takes_a_piece(rt: HostRuntime) -> Result<(), Fail> {
    let mut sink = StdSink::new(&rt);
    same(&rt, &sink.put(b"a piece\n"), &Ok(()));
    Ok(())
}

/// Whether the shelf gives these bytes for the name.
fn fetched<S: Shelf>(alloc: Global, shelf: &mut S, name: &str, want: &[u8]) -> bool {
    match shelf.fetch(alloc, name) {
        Ok(bytes) => bytes.as_slice() == want,
        Err(_) => false,
    }
}

/// Why there are no bytes of the name.
fn refused<S: Shelf>(alloc: Global, shelf: &mut S, name: &str) -> Option<ShelfError> {
    shelf.fetch(alloc, name).err()
}

#[test]
fn a_shelf_in_memory_gives_the_bytes_added_last(rt: HostRuntime) -> Result<(), Fail> {
    let alloc = rt.alloc();
    let mut shelf = MemShelf::new(alloc, Vec::new(alloc));
    shelf.add("a.bin", vec![in alloc; 1, 2]?)?;
    shelf.add("b.bin", vec![in alloc; 3]?)?;
    assert!(rt; fetched(alloc, &mut shelf, "a.bin", &[1, 2]));
    shelf.add("a.bin", vec![in alloc; 4, 5, 6]?)?;
    assert!(rt; fetched(alloc, &mut shelf, "a.bin", &[4, 5, 6]));
    assert!(rt; fetched(alloc, &mut shelf, "b.bin", &[3]));
    same(
        &rt,
        &refused(alloc, &mut shelf, "c.bin"),
        &Some(ShelfError::Absent),
    );
    Ok(())
}

#[test]
fn a_listed_call_fails_where_the_shelf_has_the_name(rt: HostRuntime) -> Result<(), Fail> {
    let alloc = rt.alloc();
    let mut shelf = MemShelf::new(alloc, vec![in alloc; 1, 2]?);
    shelf.add("box.toml", vec![in alloc; 7]?)?;
    same(
        &rt,
        &refused(alloc, &mut shelf, "box.toml"),
        &Some(ShelfError::Failed),
    );
    same(
        &rt,
        &refused(alloc, &mut shelf, "plan.toml"),
        &Some(ShelfError::Absent),
    );
    assert!(rt; fetched(alloc, &mut shelf, "box.toml", &[7]));
    Ok(())
}

#[test]
fn a_folder_gives_its_files_and_nothing_else(rt: HostRuntime) -> Result<(), Fail> {
    let alloc = rt.alloc();
    let folder = path_of(&rt, "files")?;
    let file = format!(in alloc; "{folder}/a.bin")?;
    let inner = format!(in alloc; "{folder}/inner")?;
    fs::create_dir(&rt, folder.as_str())?;
    fs::create_dir(&rt, inner.as_str())?;
    fs::write(&rt, file.as_str(), [1u8, 2, 3])?;
    let mut shelf = FolderShelf::new(&rt, folder.clone()?);
    assert!(rt; fetched(alloc, &mut shelf, "a.bin", &[1, 2, 3]));
    same(
        &rt,
        &refused(alloc, &mut shelf, "b.bin"),
        &Some(ShelfError::Absent),
    );
    same(
        &rt,
        &refused(alloc, &mut shelf, "inner"),
        &Some(ShelfError::Failed),
    );
    fs::remove_file(&rt, file.as_str())?;
    fs::remove_dir(&rt, inner.as_str())?;
    fs::remove_dir(&rt, folder.as_str())?;
    Ok(())
}

#[test]
fn names_of_files(rt: HostRuntime) -> Result<(), Fail> {
    for text in ["a", "a.bin", "A-1_2.", "_", "-x", "0"] {
        assert!(rt; file_name(text).expect(&rt, "a name").as_str() == text);
    }
    for text in ["", ".", ".a", "a b", "a/b", "ä"] {
        assert!(rt; !is_file_name(text));
        assert!(rt; file_name(text).is_none());
    }
    let longest = "abcdefghabcdefghabcdefghabcdefghabcdefghabcdefghabcdefghabcdefgh";
    same(&rt, &longest.len(), &64);
    assert!(rt; is_file_name(longest));
    assert!(rt; !is_file_name("abcdefghabcdefghabcdefghabcdefghabcdefghabcdefghabcdefghabcdefghi"));
    Ok(())
}
