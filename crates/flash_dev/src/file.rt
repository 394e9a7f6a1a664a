//! A file as a flash.
ghost use Rattle.std.specs.Prelude.{◌≡◌, ◌≢◌, ◌↔◌, ◌*◌, ◌%◌, ◌^◌, ◌<◌, ◌≤◌, false, [], IfOk, IsErr};

use crate::Flash;
use crate::buffered_file::BufferedFile;
use ssu_io::Failed;
use std::fs::{OpenFile, OpenOptions};
use std::io;
use std::io::{ErrorKind, Seek, SeekFrom};
use std::marker::PhantomData;
use std::rt::Files;

/// The length of a block in bytes.
const BLOCK: u32 = 4096;

/// A block that is erased.
const BLANK: [u8; 4096] = [255; 4096];

/// How many blocks stand for a file that is there and cannot be opened.
const BROKEN_BLOCKS: u32 = 4;

/// A file as a flash with blocks of 4,096 bytes. Each erase and program waits until the file is synced. The file is read in
/// pieces of 1,024 bytes, of which the last is kept until the next erase or program: nothing else is to write it meanwhile.
/// It tells neither what it holds nor its moments. Each error of the file is a fault.
#[derive(Drop)]
pub struct FileFlash<'a, R: Files> {
    file: Option<BufferedFile<R::File>>,
    writes: bool,
    blocks: u32,
    faults: u64,
    runtime: PhantomData<&'a R>,
    ghost addressable: { blocks * 4096 < 2 ^ 32 },
}

impl<'a, R: Files> FileFlash<'a, R> {
    ghost use Rattle.ssu_io.specs.Faults.{HasCause};

    /// Opens the file for reading and writing, at once. One that is absent or empty, has no whole number of
    /// blocks or more than 4,294,967,295 bytes is a flash of 0 blocks. One that is there and cannot be opened,
    /// as a folder, is a flash of 4 blocks of which every call fails.
    pub fn new(rt: &'a R, path: String) -> FileFlash<'a, R>
        ensures { result.faults ≡ 0 }
    {
        FileFlash::opened(rt, path, true)
    }

    /// Opens the file for reading alone, at once, with the same blocks as `new`. The flash is halted from the start: each
    /// erase and program fails, is counted as a fault and does not touch the file.
    pub fn read_only(rt: &'a R, path: String) -> FileFlash<'a, R>
        ensures faults { result.faults ≡ 0 }
        ensures reads_alone { result.writes ≡ false }
    {
        FileFlash::opened(rt, path, false)
    }

    fn opened(rt: &'a R, path: String, writes: bool) -> FileFlash<'a, R>
        ensures faults { result.faults ≡ 0 }
        ensures writes { result.writes ≡ writes }
    {
        match open(rt, &path, writes) {
            Ok((file, blocks)) => FileFlash::of(Some(BufferedFile::new(file)), blocks, writes),
            Err(error) if error.kind() == ErrorKind::NotFound => FileFlash::of(None, 0, writes),
            Err(_) => FileFlash::of(None, BROKEN_BLOCKS, writes),
        }
    }

    fn of(file: Option<BufferedFile<R::File>>, blocks: u32, writes: bool) -> FileFlash<'a, R>
        requires { blocks * 4096 < 2 ^ 32 }
        ensures faults { result.faults ≡ 0 }
        ensures writes { result.writes ≡ writes }
    {
        FileFlash {
            file,
            writes,
            blocks,
            faults: 0,
            runtime: PhantomData,
        }
    }

    /// Writes bytes into the file, unless it was opened for reading alone.
    fn write(&mut self, at: u32, bytes: &[u8]) -> Result<(), Failed>
        ensures reads_alone { self.old.writes ≡ false → IsErr result }
        ensures writes { self.new.writes ≡ self.old.writes }
        ensures blocks { self.new.blocks ≡ self.old.blocks }
        ensures cause { HasCause self.old.faults self.new.faults result }
    {
        let outcome = match &mut self.file {
            Some(file) if self.writes => file.write(at, bytes),
            Some(_) => Err(io::Error::from(ErrorKind::PermissionDenied)),
            None => Err(io::Error::from(ErrorKind::NotFound)),
        };
        self.count(outcome)
    }

    /// The answer of a call, whose failure is counted.
    fn count(&mut self, outcome: io::Result<()>) -> Result<(), Failed>
        ensures answer { IsErr result ↔ IsErr outcome }
        ensures writes { self.new.writes ≡ self.old.writes }
        ensures blocks { self.new.blocks ≡ self.old.blocks }
        ensures cause { HasCause self.old.faults self.new.faults result }
    {
        match outcome {
            Ok(()) => Ok(()),
            Err(_) => {
                self.faults = self.faults.saturating_add(1);
                Err(Failed)
            }
        }
    }
}

impl<R: Files> Flash for FileFlash<'_, R> {
    ghost tells = { ⊥ };

    ghost tells_moments = { ⊥ };

    ghost contents = { λ _. [] };

    ghost block_count = { λ flash. flash.blocks };

    ghost block_len = { λ _. 4096 };

    ghost moment = { λ _. 0 };

    ghost left_since = { λ _ _ _. ⊥ };

    // One that was opened for reading alone: each erase and program fails.
    ghost halted = { λ flash. flash.writes ≡ false };

    ghost faults = { λ flash. flash.faults };

    ghost are_bytes = { λ none _ _. absurd none };

    ghost counts_now = { λ none _ _ _. absurd none };

    ghost only_now = { λ _ _ none. absurd none };

    fn blocks(&self) -> u32 {
        self.blocks
    }

    fn block_size(&self) -> u32 {
        BLOCK
    }

    fn read(&mut self, at: u32, buf: &mut [u8]) -> Result<(), Failed> {
        let outcome = match &mut self.file {
            Some(file) => file.read(at, buf),
            None => Err(io::Error::from(ErrorKind::NotFound)),
        };
        self.count(outcome)
    }

    fn erase(&mut self, block: u32) -> Result<(), Failed> {
        self.write(block * BLOCK, &BLANK)
    }

    fn program(&mut self, at: u32, bytes: &[u8]) -> Result<(), Failed> {
        self.write(at, bytes)
    }
}

/// The file, open for reading and, where it is wanted, for writing, and its number of blocks. Its end tells its
/// length, also where it is a device.
fn open<R: Files>(rt: &R, path: &String, writes: bool) -> io::Result<(R::File, u32)>
    ensures { IfOk result (λ opened. opened.1 * 4096 < 2 ^ 32) }
{
    let mut file = OpenOptions::new().read(true).write(writes).open(rt, path)?;
    if file.metadata()?.is_dir() {
        return Err(io::Error::from(ErrorKind::IsADirectory));
    }
    let len = file.seek(SeekFrom::End(0))?;
    Ok((file, whole_blocks(len)))
}

/// The number of blocks of a file of this length, 0 where it has no whole number of them or is too long.
fn whole_blocks(len: u64) -> u32
    ensures fits { result * 4096 < 2 ^ 32 }
    ensures whole { len % 4096 ≡ 0 → len < 2 ^ 32 → result * 4096 ≡ len }
    ensures part { len % 4096 ≢ 0 → result ≡ 0 }
    ensures long { 2 ^ 32 ≤ len → result ≡ 0 }
{
    if len % u64::from(BLOCK) == 0 && len <= u64::from(u32::MAX) {
        (len / u64::from(BLOCK)) as u32
    } else {
        0
    }
}
