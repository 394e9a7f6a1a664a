//! Paths of files that tests make.

use std::test::Fail;

/// A path of this name in the folder for files of a moment, which no other process has.
pub fn path_of(rt: &HostRuntime, name: &str) -> Result<String, Fail> {
    let folder = std::env::temp_dir(rt)?;
    let folder = folder.as_path().as_str();
    let id = std::process::id(rt.process());
    Ok(format!(in rt.alloc(); "{folder}/ssu_{id}_{name}")?)
}
