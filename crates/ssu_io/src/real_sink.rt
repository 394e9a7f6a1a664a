//! A file as a sink.
ghost use Rattle.std.specs.Prelude.{◌≡◌, None};

use crate::faults::one_more;
use crate::{Failed, Sink};
use std::fs::File;
use std::io;
use std::io::Write;
use std::rt::Files;

/// A sink over a file, which is made or cut to nothing at the first byte. It does not tell its bytes.
/// Each error of the file is a fault.
#[derive(Drop)]
pub struct RealSink<'a, R: Files> {
    rt: &'a R,
    path: String,
    file: Option<R::File>,
    faults: u64,
}

impl<'a, R: Files> RealSink<'a, R> {
    /// Makes no file yet.
    pub fn new(rt: &'a R, path: String) -> RealSink<'a, R>
        ensures { result.faults ≡ 0 }
    {
        RealSink {
            rt,
            path,
            file: None,
            faults: 0,
        }
    }
}

impl<R: Files> Sink for RealSink<'_, R> {
    ghost contents = { λ _. None };

    ghost faults = { λ s. s.faults };

    fn put(&mut self, piece: &[u8]) -> Result<(), Failed> {
        if piece.is_empty() {
            return Ok(());
        }
        match write_all(self.rt, &self.path, &mut self.file, piece) {
            Ok(()) => Ok(()),
            Err(_) => {
                self.faults = one_more(self.faults);
                Err(Failed)
            }
        }
    }
}

/// Writes to the file, which it makes where that is still to be done.
fn write_all<R: Files>(
    rt: &R,
    path: &String,
    file: &mut Option<R::File>,
    piece: &[u8],
) -> io::Result<()> {
    let mut made = match file.take() {
        Some(made) => made,
        None => File::create(rt, path)?,
    };
    let written = made.write_all(piece);
    *file = Some(made);
    written
}
