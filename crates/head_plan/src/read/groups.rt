//! The groups of a plan.
ghost use Rattle.std.specs.Prelude.{◌≡◌, ◌+◌, ◌<◌, ◌≤◌, ◌^◌, Ok, IfOk, IfErr, IfSome, [], length, option_map};
ghost use Rattle.toml.specs.View.{view, items_view, table_view};
ghost use Rattle.toml_fields.specs.Reading.{named, seen};
ghost use Rattle.toml_fields.specs.Place.{place};
ghost use Rattle.head_plan.specs.PlanText.{versions, shape, file_of, is_counted, modules, group_in, group_at, groups, IsFaultOf};

use crate::fault::PlanFault;
use crate::files::Files;
use crate::groups::{Groups, PlanGroup};
use ssu_io::{FileName, file_name};
use std::alloc::Global;
use toml::{Table, Value};
use toml_fields::{FieldName, Fields, item_prefix};

#[tactic(auto, unfolding(crate::specs::PlanText::versions))]
fn read_versions(fields: &Fields) -> Result<(u16, u16, u16, u16), FieldName>
    requires { length fields.now.prefix.now ≤ 9 }
    ensures { named result ≡ versions (place fields.now) }
{
    let model = fields.number("model", 0, 65_535)?;
    let version = fields.number("version", 0, 65_535)?;
    let software_model = fields.number("software_model", 0, 65_535)?;
    let software_version = fields.number("software_version", 0, 65_535)?;
    Ok((
        model as u16,
        version as u16,
        software_model as u16,
        software_version as u16,
    ))
}

#[tactic(auto, unfolding(crate::specs::PlanText::shape))]
fn read_shape(fields: &Fields) -> Result<(u16, u8, Option<u64>), FieldName>
    requires { length fields.now.prefix.now ≤ 9 }
    ensures value { named result ≡ shape (place fields.now) }
    ensures block_some { IfOk result (λ x. 1 ≤ x.0) }
    ensures block_most { IfOk result (λ x. x.0 ≤ 4066) }
    ensures subgroup_in { IfOk result (λ x. IfSome x.2 (λ n. n < 2 ^ 40)) }
{
    let block_size = fields.optional_number("block_size", 1, 4_066)?;
    let block_size = block_size.unwrap_or(4_066);
    let module_version = fields.optional_number("module_version", 0, 255)?;
    let module_version = module_version.unwrap_or(0);
    let subgroup = fields.optional_number("subgroup", 0, 1_099_511_627_775)?;
    Ok((block_size as u16, module_version as u8, subgroup))
}

/// The name of a file that the value is.
fn file_of(value: &Value) -> Option<FileName>
    ensures { option_map (λ n. n.bytes) result ≡ file_of (view value.now) }
{
    match value.as_str() {
        Some(text) => file_name(text),
        None => None,
    }
}

/// Whether there are 1 to 256 items.
fn is_counted(items: &[Value]) -> bool
    ensures { result ≡ is_counted (items_view items.now) }
{
    1 <= items.len() && items.len() <= 256
}

#[tactic(auto, unfolding(crate::specs::PlanText::modules))]
fn read_modules(alloc: Global, fields: &Fields) -> Result<Files, PlanFault>
    requires { length fields.now.prefix.now ≤ 9 }
    ensures files { IfOk result (λ f. modules (place fields.now) ≡ Ok f) }
    ensures fault { IfErr result (IsFaultOf (modules (place fields.now))) }
{
    let items = fields.array("modules")?.as_slice();
    if !is_counted(items) {
        return Err(PlanFault::Field(fields.bad("modules")));
    }
    let mut names = Vec::new(alloc);
    for item in items {
        let Some(name) = file_of(item) else {
            return Err(PlanFault::Field(fields.bad("modules")));
        };
        names.push(name)?;
    }
    Ok(Files::new(names))
}

#[tactic(auto, unfolding(crate::specs::PlanText::group_in))]
fn read_group(alloc: Global, fields: &Fields) -> Result<PlanGroup, PlanFault>
    requires { length fields.now.prefix.now ≤ 9 }
    ensures group { IfOk result (λ g. group_in (place fields.now) ≡ Ok g) }
    ensures fault { IfErr result (IsFaultOf (group_in (place fields.now))) }
{
    let (model, version, software_model, software_version) = read_versions(fields)?;
    let (block_size, module_version, subgroup) = read_shape(fields)?;
    let modules = read_modules(alloc, fields)?;
    Ok(PlanGroup {
        model,
        version,
        software_model,
        software_version,
        block_size,
        module_version,
        subgroup,
        modules,
    })
}

/// The group of the table at an index of the array.
fn read_group_at(alloc: Global, table: &Table, index: usize) -> Result<PlanGroup, PlanFault>
    requires { index < 16 }
    ensures group { IfOk result (λ g. group_at index (table_view table.now) ≡ Ok g) }
    ensures fault { IfErr result (IsFaultOf (group_at index (table_view table.now))) }
{
    let prefix = item_prefix("group", index);
    let fields = Fields {
        table,
        prefix: prefix.as_str(),
    };
    read_group(alloc, &fields)
}

#[tactic(auto, unfolding(crate::specs::PlanText::groups))]
pub(crate) fn read_groups(alloc: Global, fields: &Fields) -> Result<Groups, PlanFault>
    requires { fields.now.prefix.now ≡ [] }
    ensures groups { IfOk result (λ g. groups (place fields.now) ≡ Ok g) }
    ensures fault { IfErr result (IsFaultOf (groups (place fields.now))) }
{
    let items = fields.tables("group", 1, 16)?.as_slice();
    let mut groups = Vec::new(alloc);
    for item in items {
        let Some(table) = item.as_table() else {
            continue;
        };
        let group = read_group_at(alloc, table, groups.len())?;
        groups.push(group)?;
    }
    Ok(Groups::new(groups))
}
