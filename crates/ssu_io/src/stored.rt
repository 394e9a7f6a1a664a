//! A file in memory.
ghost use Rattle.std.specs.Prelude.{◌≡◌, option_map};
ghost use Rattle.ssu_io.specs.Files.{bytes_of};

use std::marker::Model;

/// A file of a shelf in memory.
#[derive(Drop)]
pub(crate) struct Stored {
    pub(crate) name: String,
    pub(crate) bytes: Vec<u8>,
}

impl Model for Stored {
    ghost use Rattle.std.specs.Prelude.{string_bytes};
    ghost use Rattle.ssu_io.specs.Files.{File};

    ghost Value = { File };

    ghost view = { λ s. record { name = string_bytes s.name; bytes = s.bytes.items } };
}

/// The bytes of the last file that has this name.
pub(crate) fn find<'a>(files: &'a [Stored], name: &str) -> Option<&'a [u8]>
    ensures { option_map (λ bytes. bytes.now) result ≡ bytes_of files.now name.now }
{
    let mut found = None;
    for file in files {
        if file.name.as_str() == name {
            found = Some(file.bytes.as_slice());
        }
    }
    found
}
