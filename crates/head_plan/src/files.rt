//! The files of a group.
ghost use Rattle.std.specs.Prelude.{◌≡◌, ◌<◌, ◌≤◌, Some, length, slice_get};
ghost use Rattle.head_plan.specs.Plans.{AreFiles, texts};

use ssu_io::FileName;
use std::marker::Model;

/// The files of a group, 1 to 256 names. A contract sees the list of their texts.
#[derive(Debug, Drop)]
pub struct Files {
    names: Vec<FileName>,
}

impl Model for Files {
    ghost use Rattle.std.specs.Prelude.{ℕ, List};
    ghost use Rattle.head_plan.specs.Plans.{AreFiles, texts};

    ghost Value = { List (List ℕ) };

    ghost view = { λ f. texts f.names.items };

    ghost invariant = { λ f. AreFiles (texts f.names.items) };
}

impl Files {
    /// The files of these names.
    pub fn new(names: Vec<FileName>) -> Files
        requires { AreFiles (texts names.items) }
        ensures { result ≡ texts names.items }
    {
        Files { names }
    }

    /// The names, in order.
    pub fn as_slice(&self) -> &[FileName]
        ensures names { texts result.now ≡ self.now }
        ensures files { AreFiles self.now }
    {
        self.names.as_slice()
    }

    /// How many names there are.
    pub fn count(&self) -> usize
        ensures value { result ≡ length self.now }
        ensures some { 1 ≤ result }
        ensures few { result ≤ 256 }
    {
        self.names.as_slice().len()
    }

    /// The name at a place, from 0 on.
    pub fn name(&self, k: usize) -> FileName
        requires { k < length self.now }
        ensures { slice_get self.now k ≡ Some result.bytes }
    {
        self.names.as_slice()[k]
    }

    /// The names, in order.
    pub fn into_vec(self) -> Vec<FileName>
        ensures { texts result.items ≡ self }
    {
        self.names
    }
}
