//! Tests of the formats: packets, sections, descriptors, tables and messages, each public call by the bytes of its standard.
#![tactic(auto)]

#[cfg(test)]
mod check;
#[cfg(test)]
mod dsmcc_msg_tests;
#[cfg(test)]
mod section_form_tests;
#[cfg(test)]
mod section_kind_tests;
#[cfg(test)]
mod si_desc_tests;
#[cfg(test)]
mod si_table_outside;
#[cfg(test)]
mod si_table_tests;
#[cfg(test)]
mod ssu_compat_tests;
#[cfg(test)]
mod ssu_time_tests;
#[cfg(test)]
mod ssu_unt_tests;
#[cfg(test)]
mod ts_crc_tests;
#[cfg(test)]
mod ts_packet_tests;
#[cfg(test)]
mod ts_section_tests;
#[cfg(test)]
mod wire_tests;
