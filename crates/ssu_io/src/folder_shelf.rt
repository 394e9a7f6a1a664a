//! A folder as a shelf.
ghost use Rattle.std.specs.Prelude.{◌≡◌, ◌≤◌, ◌↔◌, IfOk, vec_len};
ghost use Rattle.ssu_io.specs.Causes.{Counts, HasAbsence, HasFault};
ghost use Rattle.ssu_io.specs.Files.{Has, IsAbsentExactly, untold};
ghost use Rattle.ssu_io.specs.declared.shelf.ShelfError.TheVariants.{Absent, Failed, Memory};

use crate::faults::one_more;
use crate::{Shelf, ShelfError};
use std::alloc::Global;
use std::fs::File;
use std::io;
use std::io::{ErrorKind, Read};
use std::rt::Files;

/// The greatest length of a file, in bytes.
const MOST: usize = 268_435_456;

/// A shelf over the files of a folder. It does not tell its files. A name that is there and is no file, a file of
/// more than 268,435,456 bytes, and each other error of the system than a missing file and want of memory, is a fault.
#[derive(Drop)]
pub struct FolderShelf<'a, R: Files> {
    rt: &'a R,
    folder: String,
    faults: u64,
    absences: u64,
}

impl<'a, R: Files> FolderShelf<'a, R> {
    /// Opens nothing yet. The path of a file is `folder`, a slash and its name.
    pub fn new(rt: &'a R, folder: String) -> FolderShelf<'a, R>
        ensures faults { result.faults ≡ 0 }
        ensures absences { result.absences ≡ 0 }
    {
        FolderShelf {
            rt,
            folder,
            faults: 0,
            absences: 0,
        }
    }
}

impl<R: Files> Shelf for FolderShelf<'_, R> {
    ghost held = { λ _. untold };

    ghost faults = { λ s. s.faults };

    ghost absences = { λ s. s.absences };

    fn fetch(&mut self, alloc: Global, name: &str) -> Result<Vec<u8>, ShelfError>
        ensures found { IfOk result (λ bytes. Has untold name.now bytes.items) }
        ensures absent { IsAbsentExactly untold name.now result }
        ensures unchanged { untold ≡ untold }
        ensures fault { HasFault self.old.faults self.new.faults result }
        ensures absence { HasAbsence self.old.absences self.new.absences result }

        ensures faults { Counts Failed self.old.faults self.new.faults result }
        ensures absences { Counts Absent self.old.absences self.new.absences result }
        ensures most { IfOk result (λ bytes. vec_len bytes ≤ 268435456) }
    {
        match read_file(self.rt, alloc, &self.folder, name) {
            Ok(bytes) => Ok(bytes),
            Err(error) => {
                let refusal = refusal_of(error.kind());
                match refusal {
                    ShelfError::Absent => self.absences = one_more(self.absences),
                    ShelfError::Failed => self.faults = one_more(self.faults),
                    ShelfError::Memory => {}
                }
                Err(refusal)
            }
        }
    }
}

/// What an error of the system is for a shelf.
fn refusal_of(kind: ErrorKind) -> ShelfError
    ensures absent { (result ≡ Absent) ↔ (kind ≡ ErrorKind.NotFound) }
    ensures memory { (result ≡ Memory) ↔ (kind ≡ ErrorKind.OutOfMemory) }
{
    match kind {
        ErrorKind::NotFound => ShelfError::Absent,
        ErrorKind::OutOfMemory => ShelfError::Memory,
        _ => ShelfError::Failed,
    }
}

/// Reads the whole file.
fn read_file<R: Files>(rt: &R, alloc: Global, folder: &str, name: &str) -> io::Result<Vec<u8>>
    ensures { IfOk result (λ bytes. vec_len bytes ≤ 268435456) }
{
    let path = format!(in alloc; "{folder}/{name}")?;
    if !rt.metadata(&path)?.is_file() {
        return Err(io::Error::from(ErrorKind::InvalidInput));
    }
    let mut bytes = Vec::new(alloc);
    let file = File::open(rt, &path)?;
    file.take(MOST as u64 + 1).read_to_end(&mut bytes)?;
    if bytes.len() > MOST {
        return Err(io::Error::from(ErrorKind::InvalidData));
    }
    Ok(bytes)
}
