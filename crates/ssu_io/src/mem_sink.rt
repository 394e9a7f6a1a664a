//! A sink in memory, which fails when it is told to.
ghost use Rattle.std.specs.Prelude.{◌≡◌, ◌↔◌, [], false, Some, Contains, IsTrue, IsErr, is_err, OnOk, OnErr, ◌⊎◌, if◌then◌else◌};
ghost use Rattle.ssu_io.specs.Bytes.{Gains, GainsPrefix};
ghost use Rattle.ssu_io.specs.Faults.{HasCause, raised};

use crate::faults::{is_listed, one_more};
use crate::{Failed, Sink};
use std::alloc::Global;
use std::marker::Model;

/// A sink that keeps what it got in memory.
#[derive(Drop)]
pub struct MemSink {
    bytes: Vec<u8>,
    fails: Vec<u32>,
    calls: u64,
    faults: u64,
    is_short: bool,
}

impl Model for MemSink {
    ghost use Rattle.ssu_io.specs.MemSink.{SinkState};

    ghost Value = { SinkState };

    ghost view = { λ s. record { contents = s.bytes.items; fails = s.fails.items; calls = s.calls; faults = s.faults; short = s.is_short } };
}

impl MemSink {
    /// Has no bytes, and fails the calls whose numbers, from 1, are in `fails`.
    pub fn new(alloc: Global, fails: Vec<u32>) -> MemSink
        ensures { result ≡ record { contents = []; fails = fails.items; calls = 0; faults = 0; short = false } }
    {
        MemSink {
            bytes: Vec::new(alloc),
            fails,
            calls: 0,
            faults: 0,
            is_short: false,
        }
    }

    /// The bytes that it got.
    pub fn bytes(&self) -> &[u8]
        ensures { result.now ≡ self.now.contents }
    {
        &self.bytes
    }

    /// The bytes that it got.
    pub fn into_bytes(self) -> Vec<u8>
        ensures { result.items ≡ self.contents }
    {
        let MemSink {
            bytes,
            fails: _,
            calls: _,
            faults: _,
            is_short: _,
        } = self;
        bytes
    }

    /// Whether a call failed that was not to fail: memory ran out.
    pub fn is_short(&self) -> bool
        ensures { result ≡ self.now.short }
    {
        self.is_short
    }
}

impl Sink for MemSink {
    ghost contents = { λ s. Some s.contents };

    ghost faults = { λ s. s.faults };

    /// Fails the calls whose numbers are listed, and others only for want of memory.
    fn put(&mut self, piece: &[u8]) -> Result<(), Failed>
        ensures whole { OnOk result (Gains (Some self.old.contents) (Some self.new.contents) piece.now) }
        ensures prefix { OnErr result (GainsPrefix (Some self.old.contents) (Some self.new.contents) piece.now) }
        ensures cause { HasCause self.old.faults self.new.faults result }

        ensures fails { Contains self.old.fails (raised self.old.calls) → IsErr result }
        ensures unchanged { OnErr result (self.new.contents ≡ self.old.contents) }
        ensures faults { self.new.faults ≡ (if is_err result then raised self.old.faults else self.old.faults) }
        ensures short { IsTrue self.new.short ↔ (IsTrue self.old.short ⊎ (IsErr result × ¬ Contains self.old.fails (raised self.old.calls))) }
        ensures calls { self.new.calls ≡ raised self.old.calls }
        ensures listed { self.new.fails ≡ self.old.fails }
    {
        self.calls = one_more(self.calls);
        if is_listed(&self.fails, self.calls) {
            self.faults = one_more(self.faults);
            return Err(Failed);
        }
        if self.bytes.extend_from_slice(piece).is_err() {
            self.faults = one_more(self.faults);
            self.is_short = true;
            return Err(Failed);
        }
        Ok(())
    }
}
