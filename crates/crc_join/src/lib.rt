//! The CRC_32 of a text out of those of the sections that carry its blocks, without a pass over the blocks.
#![tactic(auto)]

mod block_join;
mod columns;
mod resume;
#[cfg(test)]
mod tests;

pub use block_join::BlockJoin;
pub use resume::resumed;
