//! A shelf in memory, which fails when it is told to.
ghost use Rattle.std.specs.Prelude.{◌≡◌, ◌≢◌, ◌↔◌, [], ◌∷◌, ◌++◌, ℕ, List, Some, None, Err, Contains, IfOk, OnOk, OnErr, IsOk};
ghost use Rattle.ssu_io.specs.Faults.{raised};
ghost use Rattle.ssu_io.specs.Causes.{Counts, HasAbsence, HasFault};
ghost use Rattle.ssu_io.specs.Files.{Has, IsAbsentExactly, bytes_of};
ghost use Rattle.ssu_io.specs.declared.shelf.ShelfError.TheVariants.{Absent, Failed};

use crate::faults::{is_listed, one_more};
use crate::stored::{Stored, find};
use crate::{NoMemory, Shelf, ShelfError};
use std::alloc::Global;
use std::marker::Model;

/// A shelf that keeps its files in memory.
#[derive(Drop)]
pub struct MemShelf {
    files: Vec<Stored>,
    fails: Vec<u32>,
    calls: u64,
    faults: u64,
    absences: u64,
}

impl Model for MemShelf {
    ghost use Rattle.ssu_io.specs.MemShelf.{ShelfState};

    ghost Value = { ShelfState };

    ghost view = { λ s. record { files = s.files.items; fails = s.fails.items; calls = s.calls; faults = s.faults; absences = s.absences } };
}

impl MemShelf {
    /// Has no files, and fails the calls whose numbers, from 1, are in `fails`.
    pub fn new(alloc: Global, fails: Vec<u32>) -> MemShelf
        ensures { result ≡ record { files = []; fails = fails.items; calls = 0; faults = 0; absences = 0 } }
    {
        MemShelf {
            files: Vec::new(alloc),
            fails,
            calls: 0,
            faults: 0,
            absences: 0,
        }
    }

    /// Puts a file on the shelf. Where the shelf has one of this name, the bytes take the place of its bytes.
    /// `NoMemory` is the one refusal, and leaves the shelf as it was.
    pub fn add(&mut self, name: &str, bytes: Vec<u8>) -> Result<(), NoMemory>
        ensures added { OnOk result (self.new ≡ record {
          files = self.old.files ++ record { name = name.now; bytes = bytes.items } ∷ [];
          fails = self.old.fails;
          calls = self.old.calls;
          faults = self.old.faults;
          absences = self.old.absences;
        }) }
        // Whatever the shelf had of this name, it has these bytes now, and the other names have theirs.
        ensures replaced { OnOk result (bytes_of self.new.files name.now ≡ Some bytes.items) }
        ensures others { OnOk result ((other : List ℕ) → other ≢ name.now → bytes_of self.new.files other ≡ bytes_of self.old.files other) }
        ensures refused { OnErr result (self.new ≡ self.old) }
    {
        let name = String::from_str(*self.files.allocator(), name)?;
        self.files.push(Stored { name, bytes })?;
        Ok(())
    }
}

impl Shelf for MemShelf {
    ghost held = { λ s. Some s.files };

    ghost faults = { λ s. s.faults };

    ghost absences = { λ s. s.absences };

    /// Of the names that the shelf has, it fails exactly the calls whose numbers are listed: `Failed` comes exactly
    /// there.
    fn fetch(&mut self, alloc: Global, name: &str) -> Result<Vec<u8>, ShelfError>
        ensures found { IfOk result (λ bytes. Has (Some self.old.files) name.now bytes.items) }
        ensures absent { IsAbsentExactly (Some self.old.files) name.now result }
        ensures unchanged { Some self.new.files ≡ Some self.old.files }
        ensures fault { HasFault self.old.faults self.new.faults result }
        ensures absence { HasAbsence self.old.absences self.new.absences result }

        ensures fails { (result ≡ Err Failed) ↔ (Contains self.old.fails (raised self.old.calls) × (bytes_of self.old.files name.now ≢ None)) }
        ensures faults { Counts Failed self.old.faults self.new.faults result }
        ensures absences { Counts Absent self.old.absences self.new.absences result }
        ensures calls { self.new.calls ≡ raised self.old.calls }
        ensures listed { self.new.fails ≡ self.old.fails }
    {
        self.calls = one_more(self.calls);
        let Some(bytes) = find(&self.files, name) else {
            self.absences = one_more(self.absences);
            return Err(ShelfError::Absent);
        };
        if is_listed(&self.fails, self.calls) {
            self.faults = one_more(self.faults);
            return Err(ShelfError::Failed);
        }
        Ok(Vec::from_slice(alloc, bytes)?)
    }
}
