//! Packets in memory, as a source that never fails.

use ssu_io::{Failed, MemSource, Source};
use std::alloc::Global;
use std::marker::Model;

/// The bytes of packets, none of whose calls fails. A contract sees the bytes that are left.
#[derive(Drop)]
pub(crate) struct Held {
    source: MemSource,
}

impl Model for Held {
    ghost use Rattle.std.specs.Prelude.{◌≡◌, ℕ, List, []};

    ghost Value = { List ℕ };

    ghost view = { λ s. s.source.left };

    ghost invariant = { λ s. s.source.fails ≡ [] };
}

impl Held {
    ghost use Rattle.std.specs.Prelude.{◌≡◌};

    /// Has all of these bytes left.
    pub(crate) fn new(alloc: Global, bytes: Vec<u8>) -> Held
        ensures { result ≡ bytes.items }
    {
        Held {
            source: MemSource::new(bytes, u32::MAX, Vec::new(alloc)),
        }
    }
}

impl Source for Held {
    ghost use Rattle.std.specs.Prelude.{Some};

    ghost left = { λ s. Some s };

    ghost faults = { λ s. 0 };

    fn take(&mut self, buf: &mut [u8]) -> Result<usize, Failed> {
        self.source.take(buf)
    }
}
