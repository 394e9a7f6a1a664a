//! Descriptors of DVB service information (ETSI EN 300 468, 6.2) that lead to a system software update
//! (ETSI TS 102 006): the linkage, the data broadcast id, the stream identifier and the subgroup.
#![tactic(auto)]

mod components;
mod infos;
mod linkages;
mod rows;
mod subgroups;

pub use components::{component_tag, put_component_tag};
pub use infos::{InfoRow, SsuInfo, put_ssu_info, ssu_infos};
pub use linkages::{Linkage, ServiceRef, lists_oui, put_linkage, read_linkage};
pub use rows::{Desc, DescRow, descs, first, put_row, row_at};
pub use subgroups::subgroup;
