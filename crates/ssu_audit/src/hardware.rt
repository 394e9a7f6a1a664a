//! Whether a notice is for hardware that no group is for. ETSI TS 102 006, 9.4 and 9.5.2.

ghost use Rattle.std.specs.Prelude.{◌≡◌};
ghost use Rattle.std.specs.List.{list_any};
ghost use Rattle.ssu_compat.specs.View.{view as entry_view};
ghost use Rattle.ssu_unt.specs.Table.{UntFields};
ghost use Rattle.ssu_unt.specs.Views.{unt_view};
ghost use Rattle.ssu_audit.specs.Ending.{is_apart as apart_from, is_for, is_for_none as for_none, has_apart as apart_in};

use dsmcc_msg::Dsi;
use ssu_compat::{BoxId, Compat, Entry};
use ssu_unt::Unt;

/// Is a group of the DSI for the hardware of this entry?
fn has_group(dsi: &Dsi<'_>, entry: &Entry<'_>) -> bool
    ensures { result ≡ list_any (is_for (entry_view entry.now)) dsi.now.groups }
{
    let hardware = BoxId {
        oui: entry.oui,
        model: entry.model,
        version: entry.version,
        mac: None,
        serial: None,
    };
    for group in dsi.groups() {
        if group.compat.matches(&hardware) {
            return true;
        }
    }
    false
}

/// Is the entry for hardware (kind 1, specifier 1) that no group is for?
fn is_for_none(dsi: &Dsi<'_>, entry: &Entry<'_>) -> bool
    ensures { result ≡ for_none dsi.now.groups (entry_view entry.now) }
{
    entry.kind == 1 && entry.specifier == 1 && !has_group(dsi, entry)
}

/// Has a platform such an entry?
fn has_apart(dsi: &Dsi<'_>, compat: &Compat<'_>) -> bool
    ensures { result ≡ list_any (for_none dsi.now.groups) compat.now }
{
    for entry in compat.entries() {
        if is_for_none(dsi, &entry) {
            return true;
        }
    }
    false
}

/// Has a platform of the notice such an entry?
pub(crate) fn is_apart(dsi: &Dsi<'_>, unt: &Unt<'_>) -> bool
    ensures { result ≡ apart_from dsi.now.groups (unt_view unt.now) }
{
    for platform in unt.platforms() {
        if has_apart(dsi, &platform.compat) {
            return true;
        }
    }
    false
}
