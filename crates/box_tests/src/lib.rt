//! Tests of the box: its flash, the way to an update, the group and the loader.
#![tactic(auto)]

#[cfg(test)]
mod box_file_tests;
#[cfg(test)]
mod check;
#[cfg(test)]
mod flash_bank_journal_tests;
#[cfg(test)]
mod flash_bank_tests;
#[cfg(test)]
mod flash_dev_tests;
#[cfg(test)]
mod flash_layout_two_tests;
#[cfg(test)]
mod flash_remap_tests;
#[cfg(test)]
mod flash_stage_tests;
#[cfg(test)]
mod group_image_tests;
#[cfg(test)]
mod messages;
#[cfg(test)]
mod route_part_tests;
#[cfg(test)]
mod route_tables_tests;
#[cfg(test)]
mod ssu_group_tests;
#[cfg(test)]
mod ssu_loader_install_tests;
#[cfg(test)]
mod ssu_loader_replay_tests;
#[cfg(test)]
mod ssu_route_tests;
