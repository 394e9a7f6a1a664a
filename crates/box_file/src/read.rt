//! Reading `box.toml`: the first bad field is named, in the order of the fields.
ghost use Rattle.std.specs.Prelude.{◌≡◌, Ok, IfOk, IfErr, length, []};
ghost use Rattle.toml_fields.specs.Reading.{named};
ghost use Rattle.toml_fields.specs.Place.{place};
ghost use Rattle.box_file.specs.BoxText.{hardware, rule, software, manual, mac, serial, service_in, service, box_in, box_of, IsFaultOf};

use crate::file::{BoxFault, BoxFile};
use crate::values::{mac_of, rule_of, serial_of};
use arrayvec::ArrayVec;
use si_desc::ServiceRef;
use ssu_compat::{BoxId, Oui, Rule, SwId};
use std::alloc::Global;
use toml_fields::{DocumentFault, FieldName, Fields, field_name, read_document};

impl BoxFile {
    /// The box that the text of a `box.toml` tells of. Keys that are not listed in it are passed over.
    ///
    /// Answers `Field` with the name of the first bad field: one that is missing though not optional, or out of its
    /// range; and `Memory` where memory ran out. The order is `text` (no TOML or no UTF-8), `oui`, `model`,
    /// `version`, `rule`, `software_model`, `software_version`, `manual`, `mac`, `serial`, `service`.
    #[tactic(auto, unfolding(crate::specs::BoxText::box_of))]
    pub fn read(alloc: Global, text: &[u8]) -> Result<BoxFile, BoxFault>
        ensures file { IfOk result (λ b. box_of text.now ≡ Ok b) }
        ensures fault { IfErr result (IsFaultOf (box_of text.now)) }
    {
        let table = match read_document(alloc, text) {
            Ok(table) => table,
            Err(DocumentFault::Text) => return Err(BoxFault::Field(field_name("text", ""))),
            Err(DocumentFault::Memory) => return Err(BoxFault::Memory),
        };
        let fields = Fields {
            table: &table,
            prefix: "",
        };
        match read_box(&fields) {
            Ok(file) => Ok(file),
            Err(name) => Err(BoxFault::Field(name)),
        }
    }
}

#[tactic(auto, unfolding(crate::specs::BoxText::box_in))]
fn read_box(fields: &Fields) -> Result<BoxFile, FieldName>
    requires { fields.now.prefix.now ≡ [] }
    ensures { named result ≡ box_in (place fields.now) }
{
    let (oui, model, version) = read_hardware(fields)?;
    let rule = read_rule(fields)?;
    let software = read_software(fields)?;
    let manual = read_manual(fields)?;
    let mac = read_mac(fields)?;
    let serial = read_serial(fields)?;
    let service = read_service(fields)?;
    Ok(BoxFile {
        id: BoxId {
            oui,
            model,
            version,
            mac,
            serial,
        },
        rule,
        manual,
        service,
        software,
    })
}

#[tactic(auto, unfolding(crate::specs::BoxText::hardware))]
fn read_hardware(fields: &Fields) -> Result<(Oui, u16, u16), FieldName>
    requires { fields.now.prefix.now ≡ [] }
    ensures { named result ≡ hardware (place fields.now) }
{
    let oui = fields.number("oui", 0, 16_777_215)?;
    let model = fields.number("model", 0, 65_535)?;
    let version = fields.number("version", 0, 65_535)?;
    let oui = Oui::new(oui as u32).unwrap();
    Ok((oui, model as u16, version as u16))
}

#[tactic(auto, unfolding(crate::specs::BoxText::rule))]
fn read_rule(fields: &Fields) -> Result<Rule, FieldName>
    requires { fields.now.prefix.now ≡ [] }
    ensures { named result ≡ rule (place fields.now) }
{
    match rule_of(fields.text("rule")?) {
        Some(rule) => Ok(rule),
        None => Err(fields.bad("rule")),
    }
}

#[tactic(auto, unfolding(crate::specs::BoxText::software))]
fn read_software(fields: &Fields) -> Result<SwId, FieldName>
    requires { fields.now.prefix.now ≡ [] }
    ensures { named result ≡ software (place fields.now) }
{
    let model = fields.number("software_model", 0, 65_535)?;
    let version = fields.number("software_version", 0, 65_535)?;
    Ok(SwId {
        model: model as u16,
        version: version as u16,
    })
}

#[tactic(auto, unfolding(crate::specs::BoxText::manual))]
fn read_manual(fields: &Fields) -> Result<bool, FieldName>
    requires { fields.now.prefix.now ≡ [] }
    ensures { named result ≡ manual (place fields.now) }
{
    let flag = fields.optional_flag("manual")?;
    Ok(flag.unwrap_or(false))
}

#[tactic(auto, unfolding(crate::specs::BoxText::mac))]
fn read_mac(fields: &Fields) -> Result<Option<[u8; 6]>, FieldName>
    requires { fields.now.prefix.now ≡ [] }
    ensures { named result ≡ mac (place fields.now) }
{
    let Some(text) = fields.optional_text("mac")? else {
        return Ok(None);
    };
    match mac_of(text) {
        Some(mac) => Ok(Some(mac)),
        None => Err(fields.bad("mac")),
    }
}

#[tactic(auto, unfolding(crate::specs::BoxText::serial))]
fn read_serial(fields: &Fields) -> Result<Option<ArrayVec<u8, 32>>, FieldName>
    requires { fields.now.prefix.now ≡ [] }
    ensures { named result ≡ serial (place fields.now) }
{
    let Some(text) = fields.optional_text("serial")? else {
        return Ok(None);
    };
    match serial_of(text) {
        Some(serial) => Ok(Some(serial)),
        None => Err(fields.bad("serial")),
    }
}

#[tactic(auto, unfolding(crate::specs::BoxText::service_in))]
fn read_service_parts(fields: &Fields) -> Result<ServiceRef, FieldName>
    requires { fields.now.prefix.now ≡ [] }
    ensures { named result ≡ service_in (place fields.now) }
{
    let ts = fields.number("ts", 0, 65_535)?;
    let network = fields.number("network", 0, 65_535)?;
    let service = fields.number("service", 1, 65_535)?;
    Ok(ServiceRef {
        ts: ts as u16,
        network: network as u16,
        service: service as u16,
    })
}

#[tactic(auto, unfolding(crate::specs::BoxText::service))]
fn read_service(fields: &Fields) -> Result<Option<ServiceRef>, FieldName>
    requires { fields.now.prefix.now ≡ [] }
    ensures { named result ≡ service (place fields.now) }
{
    let Some(table) = fields.optional_table("service")? else {
        return Ok(None);
    };
    let parts = Fields { table, prefix: "" };
    match read_service_parts(&parts) {
        Ok(service) => Ok(Some(service)),
        Err(_) => Err(fields.bad("service")),
    }
}
