//! The modules of a sample.
ghost use Rattle.std.specs.Prelude.{◌≡◌, ◌≤◌, IfOk, map};
ghost use Rattle.tool_sample.specs.Sample.{byte_total as byte_total_of, module_count as module_count_of, module_len as module_len_of};
ghost use Rattle.tool_sample.specs.Sample.{module_of, modules_of};

use ssu_io::NoMemory;
use std::alloc::Global;

/// How many modules there are, 1 to 3.
pub(crate) fn module_count(number: u32) -> u32
    ensures value { result ≡ module_count_of number }
    ensures few { result ≤ 3 }
{
    1 + number % 3
}

/// How many bytes module `k` has, 50,000 to 99,000.
fn module_len(number: u32, k: u32) -> u32
    requires number { number ≤ 999999 }
    requires few { k ≤ 2 }
    ensures value { result ≡ module_len_of number k }
    ensures most { result ≤ 99000 }
{
    50_000 + 1000 * ((7 * number + 13 * k) % 50)
}

/// How many bytes all modules have.
#[tactic(auto, using(crate::proofs::FileLaws::bytes_more, crate::proofs::FileLaws::modules_are))]
pub(crate) fn byte_total(number: u32) -> u32
    requires { number ≤ 999999 }
    ensures { result ≡ byte_total_of number }
{
    let mut total = 0;
    for k in 0..module_count(number) {
        total += module_len(number, k);
    }
    total
}

/// The bytes of module `k`.
#[tactic(auto, using(crate::proofs::FileLaws::bytes_so_far, crate::proofs::FileLaws::module_is))]
fn module(alloc: Global, number: u32, k: u32) -> Result<Vec<u8>, NoMemory>
    requires number { number ≤ 999999 }
    requires few { k ≤ 2 }
    ensures { IfOk result (λ bytes. bytes.items ≡ module_of number k) }
{
    let mut bytes = Vec::new(alloc);
    for i in 0..module_len(number, k) {
        bytes.push(((i + i / 251 + 31 * k + number) % 256) as u8)?;
    }
    Ok(bytes)
}

/// The bytes of each module.
#[tactic(auto, using(crate::proofs::FileLaws::modules_so_far, crate::proofs::FileLaws::modules_are))]
pub(crate) fn modules(alloc: Global, number: u32) -> Result<Vec<Vec<u8>>, NoMemory>
    requires { number ≤ 999999 }
    ensures { IfOk result (λ files. map (λ f. f.items) files.items ≡ modules_of number) }
{
    let mut files = Vec::new(alloc);
    for k in 0..module_count(number) {
        files.push(module(alloc, number, k)?)?;
    }
    Ok(files)
}
