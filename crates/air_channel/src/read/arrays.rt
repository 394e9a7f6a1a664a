//! The arrays of a script: packet numbers and changes.
ghost use Rattle.std.specs.Prelude.{◌≡◌, ◌≤◌, IfOk, IfErr, IfSome, option_map, true};
ghost use Rattle.toml.specs.View.{view, items_view};
ghost use Rattle.air_channel.specs.Scripts.{rises};
ghost use Rattle.air_channel.specs.ScriptText.{change_of, changes_of, each_of, few_items, number_of, numbers_of};
ghost use Rattle.air_channel.specs.declared.fault.ScriptFault.TheVariants.{Memory};

use crate::change::{Change, Changes, are_in_order};
use crate::fault::ScriptFault;
use crate::numbers::{Numbers, are_rising};
use std::alloc::Global;
use toml::Value;
use toml_fields::whole_number;

/// The greatest number of a packet.
const MOST_NUMBER: u64 = 16_777_215;

/// How many entries an array has at most.
const MOST_ENTRIES: usize = 65_536;

/// The packet numbers of an array, if each is at least `gap` more than the one before it.
#[tactic(auto, unfolding(crate::specs::ScriptText::numbers_of))]
pub(super) fn numbers_of(
    alloc: Global,
    value: &Value,
    gap: u32,
) -> Result<Option<Numbers>, ScriptFault>
    requires some { 1 ≤ gap }
    requires few { gap ≤ 2 }
    ensures value { IfOk result (λ found. found ≡ numbers_of gap (view value.now)) }
    ensures apart { IfOk result (λ found. IfSome found (λ ns. rises gap 0 ns ≡ true)) }
    ensures fault { IfErr result (λ fault. fault ≡ Memory) }
{
    let Some(items) = few_items(value) else {
        return Ok(None);
    };
    let Some(numbers) = each_number(alloc, items)? else {
        return Ok(None);
    };
    if are_rising(&numbers, gap) {
        Ok(Some(Numbers::new(numbers)))
    } else {
        Ok(None)
    }
}

/// The changes of an array, if they are in order.
#[tactic(auto, unfolding(crate::specs::ScriptText::changes_of))]
pub(super) fn changes_of(alloc: Global, value: &Value) -> Result<Option<Changes>, ScriptFault>
    ensures value { IfOk result (λ found. found ≡ changes_of (view value.now)) }
    ensures fault { IfErr result (λ fault. fault ≡ Memory) }
{
    let Some(items) = few_items(value) else {
        return Ok(None);
    };
    let Some(changes) = each_change(alloc, items)? else {
        return Ok(None);
    };
    if are_in_order(&changes) {
        Ok(Some(Changes::new(changes)))
    } else {
        Ok(None)
    }
}

/// The items of an array that has not too many.
#[tactic(auto, using(crate::proofs::Arrays::few_items_some, crate::proofs::Arrays::few_items_none))]
fn few_items(value: &Value) -> Option<&[Value]>
    ensures { option_map (λ items. items_view items.now) result ≡ few_items (view value.now) }
{
    let Some(items) = value.as_array() else {
        return None;
    };
    if items.as_slice().len() <= MOST_ENTRIES {
        Some(items.as_slice())
    } else {
        None
    }
}

/// The packet number that each item is.
#[tactic(auto, using(crate::proofs::Arrays::each_step, crate::proofs::Arrays::each_stop, crate::proofs::Arrays::each_end, crate::proofs::Arrays::each_none))]
fn each_number(alloc: Global, items: &[Value]) -> Result<Option<Vec<u32>>, ScriptFault>
    ensures value { IfOk result (λ found. option_map (λ ns. ns.items) found ≡ each_of number_of (items_view items.now)) }
    ensures fault { IfErr result (λ fault. fault ≡ Memory) }
{
    let mut numbers = Vec::new(alloc);
    for item in items {
        let Some(number) = whole_number(item, 0, MOST_NUMBER) else {
            return Ok(None);
        };
        numbers.push(number as u32)?;
    }
    Ok(Some(numbers))
}

/// The change that each item is.
#[tactic(auto, using(crate::proofs::Arrays::each_step, crate::proofs::Arrays::each_stop, crate::proofs::Arrays::each_end, crate::proofs::Arrays::each_none))]
fn each_change(alloc: Global, items: &[Value]) -> Result<Option<Vec<Change>>, ScriptFault>
    ensures value { IfOk result (λ found. option_map (λ cs. cs.items) found ≡ each_of change_of (items_view items.now)) }
    ensures fault { IfErr result (λ fault. fault ≡ Memory) }
{
    let mut changes = Vec::new(alloc);
    for item in items {
        let Some(change) = change_of(item) else {
            return Ok(None);
        };
        changes.push(change)?;
    }
    Ok(Some(changes))
}

/// The change that an array of three numbers is.
#[tactic(auto, using(crate::proofs::Arrays::change_of_fewer, crate::proofs::Arrays::change_of_more))]
fn change_of(value: &Value) -> Option<Change>
    ensures { result ≡ change_of (view value.now) }
{
    let Some(items) = value.as_array() else {
        return None;
    };
    let [packet, offset, byte] = items.as_slice() else {
        return None;
    };
    let packet = whole_number(packet, 0, MOST_NUMBER)?;
    let offset = whole_number(offset, 0, 187)?;
    let byte = whole_number(byte, 0, 255)?;
    Some(Change {
        packet: packet as u32,
        offset: offset as u8,
        byte: byte as u8,
    })
}
