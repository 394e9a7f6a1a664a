//! A file of which the piece that was read last is kept.

use std::fs::OpenFile;
use std::io;
use std::io::{Read, Seek, SeekFrom, Write};

/// The length of a piece in bytes. Pieces begin at multiples of it.
const PIECE: usize = 1024;

/// An open file. A call that begins where the one before ended makes no seek, and reads of one piece, one after
/// another, make one read of the file.
#[derive(Drop)]
pub(crate) struct BufferedFile<F> {
    file: F,
    /// Where the next read or write of the file begins, where that is known.
    place: Option<u64>,
    /// Where the piece in `held` begins, and nothing after a write.
    piece: Option<u64>,
    held: [u8; 1024],
}

impl<F: Read + Write + Seek + OpenFile> BufferedFile<F> {
    pub(crate) fn new(file: F) -> BufferedFile<F> {
        BufferedFile {
            file,
            place: None,
            piece: None,
            held: [0; 1024],
        }
    }

    /// Reads the bytes from a place on, by whole pieces.
    pub(crate) fn read(&mut self, at: u32, buf: &mut [u8]) -> io::Result<()> {
        let mut done = 0usize;
        while done < buf.len() {
            let place = u64::from(at) + done as u64;
            let from = (place % PIECE as u64) as usize;
            let end = done + (buf.len() - done).min(PIECE - from);
            self.load(place - from as u64)?;
            buf[done..end].copy_from_slice(&self.held[from..from + (end - done)]);
            done = end;
        }
        Ok(())
    }

    /// Writes bytes from a place on, and waits until the file is synced.
    pub(crate) fn write(&mut self, at: u32, bytes: &[u8]) -> io::Result<()> {
        self.piece = None;
        self.seek(u64::from(at))?;
        self.file.write_all(bytes)?;
        self.place = Some(u64::from(at) + bytes.len() as u64);
        self.file.sync_all()
    }

    /// Reads the piece that begins at a place, unless it was read last.
    fn load(&mut self, at: u64) -> io::Result<()> {
        if self.piece == Some(at) {
            return Ok(());
        }
        self.piece = None;
        self.seek(at)?;
        self.file.read_exact(&mut self.held)?;
        self.place = Some(at.saturating_add(PIECE as u64));
        self.piece = Some(at);
        Ok(())
    }

    /// Goes to a place of the file, unless the next call begins there. It is unknown until a call has ended well.
    fn seek(&mut self, at: u64) -> io::Result<()> {
        let there = self.place == Some(at);
        self.place = None;
        if !there {
            self.file.seek(SeekFrom::Start(at))?;
        }
        Ok(())
    }
}
