//! Bytes that were read from a file at once, and wait to be taken.
ghost use Rattle.std.specs.Prelude.{◌≡◌, ◌≤◌, length};

use std::io;
use std::io::Read;

/// How many bytes are read from a file at once.
const ROOM: usize = 1 << 14;

/// The bytes `at` to `end` wait.
#[derive(Drop)]
pub(crate) struct Ahead {
    bytes: [u8; ROOM],
    at: usize,
    end: usize,
    ghost ordered: { at ≤ end },
    ghost within: { end ≤ 16384 },
}

impl Ahead {
    /// Nothing waits.
    pub(crate) fn new() -> Ahead {
        Ahead {
            bytes: [0; ROOM],
            at: 0,
            end: 0,
        }
    }

    /// Whether nothing waits.
    pub(crate) fn is_empty(&self) -> bool {
        self.at == self.end
    }

    /// Reads once, in place of what waits. Nothing waits then where the file is at its end.
    pub(crate) fn fill<F: Read>(&mut self, file: &mut F) -> io::Result<()> {
        self.at = 0;
        self.end = 0;
        let n = file.read(&mut self.bytes)?;
        self.end = n;
        Ok(())
    }

    /// Puts the bytes that wait, as many as there is room for, in front of `buf`, and answers how many they are.
    pub(crate) fn take(&mut self, buf: &mut [u8]) -> usize
        ensures { result ≤ length buf.new }
    {
        let n = buf.len().min(self.end - self.at);
        buf[..n].copy_from_slice(&self.bytes[self.at..self.at + n]);
        self.at += n;
        n
    }
}
