//! The file that a command makes.
ghost use Rattle.std.specs.Prelude.{None};

use ssu_io::{Failed, RealSink, Sink};
use std::rt::Files;

/// A sink over the file that a command makes. It knows whether the file was cut short. It does not tell its bytes.
#[derive(Drop)]
pub struct MadeFile<'a, R: Files> {
    file: RealSink<'a, R>,
    has_piece: bool,
    is_cut_short: bool,
    faults: u64,
}

impl<'a, R: Files> MadeFile<'a, R> {
    /// Makes no file yet.
    pub fn new(file: RealSink<'a, R>) -> MadeFile<'a, R> {
        MadeFile {
            file,
            has_piece: false,
            is_cut_short: false,
            faults: 0,
        }
    }

    /// Whether a piece was put into the file, and a later one was not.
    pub fn is_cut_short(&self) -> bool {
        self.is_cut_short
    }
}

impl<R: Files> Sink for MadeFile<'_, R> {
    ghost contents = { λ _. None };

    ghost faults = { λ s. s.faults };

    fn put(&mut self, piece: &[u8]) -> Result<(), Failed> {
        match self.file.put(piece) {
            Ok(()) => {
                self.has_piece = true;
                Ok(())
            }
            Err(Failed) => {
                self.is_cut_short = self.has_piece;
                self.faults = self.faults.saturating_add(1);
                Err(Failed)
            }
        }
    }
}
