//! What several layers answer: the level of a way that ends, the group that was chosen, the verdict, and why nothing is built.
#![tactic(auto)]

mod bank_len;
mod build_fault;
mod chosen;
mod level;
mod verdict;

pub use bank_len::BANK_LEN;
pub use build_fault::BuildFault;
pub use chosen::Chosen;
pub use level::Level;
pub use ssu_io::FileName;
pub use verdict::Verdict;
