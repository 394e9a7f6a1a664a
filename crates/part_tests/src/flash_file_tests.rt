//! A file as a flash, and what is none.

use crate::check::same;
use crate::paths::path_of;
use flash_dev::{FileFlash, Flash};
use std::fs;
use std::test::Fail;

#[test]
fn a_file_is_a_flash_of_its_whole_blocks(rt: HostRuntime) -> Result<(), Fail> {
    let path = path_of(&rt, "two_blocks")?;
    fs::write(&rt, path.as_str(), [0u8; 8192])?;
    let mut flash = FileFlash::new(&rt, path.clone()?);
    assert!(rt; (flash.blocks(), flash.block_size()) == (2, 4096));
    flash.erase(1)?;
    flash.program(4100, &[1, 2, 3])?;
    let mut buf = [0u8; 6];
    flash.read(4094, &mut buf)?;
    same(&rt, &buf, &[0, 0, 255, 255, 255, 255]);
    flash.read(4098, &mut buf)?;
    same(&rt, &buf, &[255, 255, 1, 2, 3, 255]);
    flash.program(4103, &[4])?;
    flash.read(4098, &mut buf)?;
    same(&rt, &buf, &[255, 255, 1, 2, 3, 4]);
    same(&rt, &fs::read(&rt, path.as_str())?.len(), &8192);
    fs::remove_file(&rt, path.as_str())?;
    Ok(())
}

#[test]
fn a_flash_that_is_only_read_stays_as_it_is(rt: HostRuntime) -> Result<(), Fail> {
    let path = path_of(&rt, "only_read")?;
    fs::write(&rt, path.as_str(), [7u8; 8192])?;
    let mut flash = FileFlash::read_only(&rt, path.clone()?);
    assert!(rt; flash.blocks() == 2);
    let mut buf = [0u8; 2];
    flash.read(4095, &mut buf)?;
    same(&rt, &buf, &[7, 7]);
    assert!(rt; flash.erase(0).is_err());
    assert!(rt; flash.program(4096, &[0]).is_err());
    same(
        &rt,
        &fs::read(&rt, path.as_str())?.as_slice(),
        &[7; 8192].as_slice(),
    );
    fs::remove_file(&rt, path.as_str())?;
    Ok(())
}

/// How many blocks the file of this path has, as a flash and as one that is only read.
fn blocks_in(rt: &HostRuntime, path: &str) -> Result<(u32, u32), Fail> {
    let flash = FileFlash::new(rt, String::from_str(rt.alloc(), path)?);
    let read_only = FileFlash::read_only(rt, String::from_str(rt.alloc(), path)?);
    Ok((flash.blocks(), read_only.blocks()))
}

/// Whether it has four blocks, and a read, an erase and a program of it fail.
fn is_of_four_and_fails(flash: &mut FileFlash<'_, HostRuntime>) -> bool {
    flash.blocks() == 4
        && flash.read(0, &mut [0]).is_err()
        && flash.erase(3).is_err()
        && flash.program(0, &[1]).is_err()
}

#[test]
fn a_file_that_is_no_flash_has_no_blocks_and_a_folder_four(rt: HostRuntime) -> Result<(), Fail> {
    let path = path_of(&rt, "odd")?;
    same(&rt, &blocks_in(&rt, path.as_str())?, &(0, 0));
    for len in [0usize, 4097] {
        fs::write(&rt, path.as_str(), vec![in rt.alloc(); 0u8; len]?)?;
        same(&rt, &blocks_in(&rt, path.as_str())?, &(0, 0));
    }
    fs::remove_file(&rt, path.as_str())?;

    fs::create_dir(&rt, path.as_str())?;
    same(&rt, &blocks_in(&rt, path.as_str())?, &(4, 4));
    assert!(rt; is_of_four_and_fails(&mut FileFlash::new(&rt, path.clone()?)));
    assert!(rt; is_of_four_and_fails(&mut FileFlash::read_only(&rt, path.clone()?)));
    fs::remove_dir(&rt, path.as_str())?;
    Ok(())
}
