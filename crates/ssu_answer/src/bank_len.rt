//! How long a bank is where there is no flash.

/// The bytes that a group may have where no flash says how long a bank is: 128 MiB.
pub const BANK_LEN: u32 = 134_217_728;
