//! The fields of a TOML file, each by its name and range, and the name of the first bad one.
#![tactic(auto)]

mod document;
mod fields;
mod naming;
mod values;

pub use document::{DocumentFault, read_document};
pub use fields::Fields;
pub use naming::{FieldName, field_name, item_prefix};
pub use values::{are_tables, is_each_table, whole_number};
