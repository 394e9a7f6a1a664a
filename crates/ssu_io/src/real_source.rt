//! A file as a source.
ghost use Rattle.std.specs.Prelude.{◌≡◌, ◌≤◌, None, length, IfOk};

use crate::ahead::Ahead;
use crate::faults::one_more;
use crate::{Failed, Source};
use std::fs::File;
use std::io;
use std::rt::Files;

/// A source over a file, which is opened at the first call and read 16 KiB at a time. It takes no memory beside its
/// own 16 KiB, and does not tell its bytes. Each error of the file is a fault.
#[derive(Drop)]
pub struct RealSource<'a, R: Files> {
    rt: &'a R,
    path: String,
    file: Option<R::File>,
    ahead: Ahead,
    faults: u64,
}

impl<'a, R: Files> RealSource<'a, R> {
    /// Opens nothing yet.
    pub fn new(rt: &'a R, path: String) -> RealSource<'a, R>
        ensures { result.faults ≡ 0 }
    {
        RealSource {
            rt,
            path,
            file: None,
            ahead: Ahead::new(),
            faults: 0,
        }
    }
}

impl<R: Files> Source for RealSource<'_, R> {
    ghost left = { λ _. None };

    ghost faults = { λ s. s.faults };

    fn take(&mut self, buf: &mut [u8]) -> Result<usize, Failed> {
        match read_some(self.rt, &self.path, &mut self.file, &mut self.ahead, buf) {
            Ok(n) => Ok(n),
            Err(_) => {
                self.faults = one_more(self.faults);
                Err(Failed)
            }
        }
    }
}

/// Takes what was read ahead. Where nothing waits, it reads first.
fn read_some<R: Files>(
    rt: &R,
    path: &String,
    file: &mut Option<R::File>,
    ahead: &mut Ahead,
    buf: &mut [u8],
) -> io::Result<usize>
    ensures { IfOk result (λ n. n ≤ length buf.new) }
{
    if ahead.is_empty() {
        read_ahead(rt, path, file, ahead)?;
    }
    Ok(ahead.take(buf))
}

/// Reads from the file, which it opens where that is still to be done.
fn read_ahead<R: Files>(
    rt: &R,
    path: &String,
    file: &mut Option<R::File>,
    ahead: &mut Ahead,
) -> io::Result<()> {
    let mut opened = match file.take() {
        Some(opened) => opened,
        None => File::open(rt, path)?,
    };
    let filled = ahead.fill(&mut opened);
    *file = Some(opened);
    filled
}
