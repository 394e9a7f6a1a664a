//! Two image banks and two records in a flash: what boot takes at every moment, also when the power goes.
#![tactic(auto)]

mod bank;
mod boot_image;
mod clear;
mod encoding;
mod fault;
mod find;
mod first_image;
mod journal_puts;
mod laid_image;
mod migration;
mod record;
mod runs;
mod scan;

pub use bank::Bank;
pub use boot_image::boot;
pub use fault::{BankFault, BootFault, FlashFault, FormatFault, MigrateFault};
pub use first_image::{format, format_one};
pub use migration::{Migrated, migrate};
pub use record::Record;
