//! A source in memory, which gives few bytes at a time and fails when it is told to.
ghost use Rattle.std.specs.Prelude.{◌≡◌, ◌↔◌, [], ◌<◌, ◌≤◌, ◌+◌, ◌-◌, ◌++◌, min, Some, Contains, length, take, drop, IsErr, is_err, IfOk, OnErr, vec_len, if◌then◌else◌};
ghost use Rattle.ssu_io.specs.Bytes.{Takes, IsZeroAtEnd};
ghost use Rattle.ssu_io.specs.Faults.{HasCause, raised};

use crate::faults::{is_listed, one_more};
use crate::{Failed, Source};
use std::marker::Model;

/// A source over bytes in memory.
#[derive(Drop)]
pub struct MemSource {
    bytes: Vec<u8>,
    at: usize,
    step: u32,
    fails: Vec<u32>,
    calls: u64,
    faults: u64,
}

impl Model for MemSource {
    ghost use Rattle.std.specs.Prelude.{◌<◌, ◌≤◌, drop, vec_len};
    ghost use Rattle.ssu_io.specs.MemSource.{SourceState};

    ghost Value = { SourceState };

    ghost view = { λ s. record { left = drop s.at s.bytes.items; step = s.step; fails = s.fails.items; calls = s.calls; faults = s.faults } };

    ghost invariant = { λ s. (s.at ≤ vec_len s.bytes) × (0 < s.step) };
}

impl MemSource {
    /// Gives these bytes, at most `step` of them in a call, and fails the calls whose numbers,
    /// from 1, are in `fails`.
    pub fn new(bytes: Vec<u8>, step: u32, fails: Vec<u32>) -> MemSource
        requires { 0 < step }
        ensures { result ≡ record { left = bytes.items; step = step; fails = fails.items; calls = 0; faults = 0 } }
    {
        MemSource {
            bytes,
            at: 0,
            step,
            fails,
            calls: 0,
            faults: 0,
        }
    }
}

impl Source for MemSource {
    ghost left = { λ s. Some s.left };

    ghost faults = { λ s. s.faults };

    /// Fails exactly the calls whose numbers are listed.
    fn take(&mut self, buf: &mut [u8]) -> Result<usize, Failed>
        requires { 0 < length buf.old }
        ensures within { IfOk result (λ n. n ≤ length buf.new) }
        ensures taken { IfOk result (λ n. Takes (Some self.old.left) (Some self.new.left) (take n buf.new)) }
        ensures end { IfOk result (λ n. IsZeroAtEnd (Some self.old.left) n) }
        ensures refused { OnErr result (Some self.new.left ≡ Some self.old.left) }
        ensures cause { HasCause self.old.faults self.new.faults result }

        ensures fails { IsErr result ↔ Contains self.old.fails (raised self.old.calls) }
        ensures count { IfOk result (λ n. n ≡ min (min self.old.step (length buf.old)) (length self.old.left)) }
        ensures faults { self.new.faults ≡ (if is_err result then raised self.old.faults else self.old.faults) }
        ensures calls { self.new.calls ≡ raised self.old.calls }
        ensures step { self.new.step ≡ self.old.step }
        ensures listed { self.new.fails ≡ self.old.fails }
    {
        self.calls = one_more(self.calls);
        if is_listed(&self.fails, self.calls) {
            self.faults = one_more(self.faults);
            return Err(Failed);
        }
        let n = copy_from(&self.bytes, self.at, buf, self.step);
        self.at += n;
        Ok(n)
    }
}

/// Copies the bytes from place `at` on to the front of `to`, `most` of them at most.
fn copy_from(bytes: &[u8], at: usize, to: &mut [u8], most: u32) -> usize
    requires inside { at ≤ length bytes.now }
    requires room { 0 < length to.old }
    requires some { 0 < most }
    ensures count { result ≡ min (min most (length to.old)) (length bytes.now - at) }
    ensures copied { drop at bytes.now ≡ take result to.new ++ drop (at + result) bytes.now }
    ensures end { (result ≡ 0) ↔ (drop at bytes.now ≡ []) }
{
    let n = (most as usize).min(to.len()).min(bytes.len() - at);
    to[..n].copy_from_slice(&bytes[at..at + n]);
    n
}
