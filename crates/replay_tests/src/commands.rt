//! Commands over files, packets and a flash in memory.

use crate::check::same;
use flash_dev::{Flash, MemFlash};
use ssu_io::{MemShelf, MemSink, MemSource};
use ssu_tool::{Status, run};
use std::alloc::{AllocError, Global};
use std::process::Abort;
use std::test::Fail;

/// What came of a command, what it printed and what it made.
#[derive(Drop)]
pub struct Outcome {
    pub status: Status,
    pub put: Vec<u8>,
    pub made: Vec<u8>,
}

/// The words of a command line.
pub fn owned(alloc: Global, words: &[&str]) -> Result<Vec<String>, AllocError> {
    let mut list = Vec::new(alloc);
    for word in words {
        list.push(String::from_str(alloc, word)?)?;
    }
    Ok(list)
}

/// A shelf with these files.
pub fn shelf_with(alloc: Global, files: &[(&str, &[u8])]) -> Result<MemShelf, Fail> {
    let mut shelf = MemShelf::new(alloc, Vec::new(alloc));
    for (name, bytes) in files {
        shelf.add(name, bytes.to_vec(alloc)?)?;
    }
    Ok(shelf)
}

/// Runs a command over the files of the shelf, these packets and the flash. Nothing fails but what the flash is to fail.
pub fn outcome_on<F: Flash>(
    alloc: Global,
    words: &[&str],
    shelf: &mut MemShelf,
    packets: &[u8],
    flash: &mut F,
) -> Result<Outcome, Fail> {
    let words = owned(alloc, words)?;
    let mut air = MemSource::new(packets.to_vec(alloc)?, 65_536, Vec::new(alloc));
    let mut made = MemSink::new(alloc, Vec::new(alloc));
    let mut out = MemSink::new(alloc, Vec::new(alloc));
    let status = run(alloc, &words, shelf, &mut air, flash, &mut made, &mut out);
    Ok(Outcome {
        status,
        put: out.into_bytes(),
        made: made.into_bytes(),
    })
}

/// Runs a command, which is done and prints this. Answers what it made.
pub fn done<F: Flash>(
    rt: &impl Abort,
    alloc: Global,
    words: &[&str],
    shelf: &mut MemShelf,
    packets: &[u8],
    flash: &mut F,
    put: &str,
) -> Result<Vec<u8>, Fail> {
    let outcome = outcome_on(alloc, words, shelf, packets, flash)?;
    same(rt, &outcome.status.code(), &0);
    same(rt, &outcome.put.as_slice(), &put.as_bytes());
    Ok(outcome.made)
}

/// The length of the largest flash of these tests, which has 520 blocks.
const MOST_LEN: usize = 520 * 4096;

/// A flash of blocks of 4,096 bytes with these contents, and with room for so many erases and programs. It counts its calls from 1.
pub fn holding(alloc: Global, contents: &[u8], calls: u32) -> Result<MemFlash, Fail> {
    if contents.len() > MOST_LEN || contents.len() % 4096 != 0 {
        return Err("not whole blocks of a flash".into());
    }
    Ok(MemFlash::holding(alloc, contents, 4096, calls)?)
}

/// A box: its files and its flash.
#[derive(Drop)]
pub struct Receiver {
    pub shelf: MemShelf,
    pub flash: MemFlash,
}

impl Receiver {
    /// A box whose flash is formatted with the file `old.bin`.
    pub fn formatted(alloc: Global, shelf: MemShelf, flash: MemFlash) -> Result<Receiver, Fail> {
        let mut receiver = Receiver { shelf, flash };
        let formatted = receiver.run(alloc, &["folder", "format", "old.bin"], &[])?;
        if formatted.status != Status::Done {
            return Err("it is not formatted".into());
        }
        Ok(receiver)
    }

    /// The power goes away and comes again: the calls of the flash are counted from here on.
    pub fn restart(&mut self, alloc: Global) -> Result<(), Fail> {
        self.flash = holding(alloc, self.flash.contents(), 1024)?;
        Ok(())
    }

    /// Runs a command over these packets.
    pub fn run(&mut self, alloc: Global, words: &[&str], packets: &[u8]) -> Result<Outcome, Fail> {
        outcome_on(alloc, words, &mut self.shelf, packets, &mut self.flash)
    }

    /// The packets of the plan on the shelf.
    pub fn packets(&mut self, alloc: Global) -> Result<Vec<u8>, Fail> {
        let built = self.run(alloc, &["folder", "build"], &[])?;
        if built.status != Status::Done {
            return Err("it is not built".into());
        }
        Ok(built.made)
    }

    /// Replays these packets, with this exit code and this line.
    pub fn replays(
        &mut self,
        rt: &impl Abort,
        alloc: Global,
        packets: &[u8],
        (code, line): (u8, &str),
    ) -> Result<(), Fail> {
        let replayed = self.run(alloc, &["folder", "replay"], packets)?;
        same(rt, &replayed.put.as_slice(), &line.as_bytes());
        same(rt, &replayed.status.code(), &code);
        Ok(())
    }

    /// Replays these packets, which the flash fails.
    pub fn fails(&mut self, rt: &impl Abort, alloc: Global, packets: &[u8]) -> Result<(), Fail> {
        let replayed = self.run(alloc, &["folder", "replay"], packets)?;
        same(rt, &replayed.status, &Status::FlashFault);
        same(rt, &replayed.status.code(), &12);
        assert!(rt; replayed.put.is_empty());
        Ok(())
    }

    /// Boots, which takes this image.
    pub fn boots(&mut self, rt: &impl Abort, alloc: Global, image: &[u8]) -> Result<(), Fail> {
        let booted = self.run(alloc, &["folder", "boot"], &[])?;
        same(rt, &booted.status, &Status::Done);
        same(rt, &booted.made.as_slice(), &image);
        Ok(())
    }

    /// Whether these bytes stand in the flash at this place.
    pub fn has_at(&self, at: usize, bytes: &[u8]) -> bool {
        match self.flash.contents().get(at..) {
            Some(rest) => rest.starts_with(bytes),
            None => false,
        }
    }
}

/// A file of this length: this byte and those above it up to 249, then from 0 on, over and over.
pub fn file_of(alloc: Global, first: u8, len: u32) -> Result<Vec<u8>, AllocError> {
    let mut bytes = Vec::new(alloc);
    let mut byte = first;
    for _ in 0..len {
        bytes.push(byte)?;
        byte = if byte < 249 { byte + 1 } else { 0 };
    }
    Ok(bytes)
}

/// The front of some packets.
pub fn front(packets: &[u8], len: usize) -> Result<&[u8], Fail> {
    Ok(packets.get(..len).ok_or("as many packets")?)
}
