//! Reading `script.toml`: the first bad field is named, in the order of the fields.
ghost use Rattle.std.specs.Prelude.{◌≡◌, ◌+◌, ◌≤◌, ◌++◌, Ok, IfOk, IfErr, IfSome, length, true};
ghost use Rattle.std.specs.Option.{ForSome};
ghost use Rattle.toml_fields.specs.Reading.{named};
ghost use Rattle.toml_fields.specs.Place.{place};
ghost use Rattle.air_channel.specs.Scripts.{IsLoss, rises};
ghost use Rattle.air_channel.specs.ScriptText.{IsFaultOf, beside, changes, has, loss, loss_of, numbers, prefix, script_in, script_of};

mod arrays;

use crate::change::Changes;
use crate::fault::ScriptFault;
use crate::loss::RegularLoss;
use crate::numbers::Numbers;
use crate::script::Script;
use arrays::{changes_of, numbers_of};
use std::alloc::Global;
use toml_fields::{DocumentFault, FieldName, Fields, field_name, read_document};

/// What stands before the name of a bad field.
const PREFIX: &str = "script.";

impl Script {
    /// The script that the text of a `script.toml` tells of. Each key may be missing, and those that are not listed here
    /// are passed over.
    ///
    /// # Errors
    ///
    /// `Field` names the first bad field, with `script.` before it. The order is `text` (no TOML or no UTF-8), `set` (an
    /// array of arrays of a packet number, an offset 0 to 187 and a byte, strictly ascending by packet number and offset),
    /// `swap`, `drop`, `repeat` (strictly ascending arrays of packet numbers, those of `swap` at least 2 apart),
    /// `drop_every` (2 to 65535) and `drop_until` (0 to 16777216), of which one beside the other is bad where it is
    /// missing. Packet numbers are 0 to 16777215, and an array has at most 65536 entries.
    #[tactic(auto, unfolding(crate::specs::ScriptText::script_of))]
    pub fn read(alloc: Global, text: &[u8]) -> Result<Script, ScriptFault>
        ensures script { IfOk result (λ s. script_of text.now ≡ Ok s) }
        ensures fault { IfErr result (IsFaultOf (script_of text.now)) }
    {
        let table = match read_document(alloc, text) {
            Ok(table) => table,
            Err(DocumentFault::Text) => {
                return Err(ScriptFault::Field(field_name(PREFIX, "text")));
            }
            Err(DocumentFault::Memory) => return Err(ScriptFault::Memory),
        };
        let fields = Fields {
            table: &table,
            prefix: PREFIX,
        };
        read_script(alloc, &fields)
    }
}

#[tactic(auto, unfolding(crate::specs::ScriptText::script_in))]
fn read_script(alloc: Global, fields: &Fields) -> Result<Script, ScriptFault>
    requires { fields.now.prefix.now ≡ prefix }
    ensures script { IfOk result (λ s. script_in (place fields.now) ≡ Ok s) }
    ensures fault { IfErr result (IsFaultOf (script_in (place fields.now))) }
{
    let changes = read_changes(alloc, fields)?;
    let swaps = read_numbers(alloc, fields, "swap", 2)?;
    let drops = read_numbers(alloc, fields, "drop", 1)?;
    let repeats = read_numbers(alloc, fields, "repeat", 1)?;
    let loss = read_loss(fields)?;
    Ok(Script {
        changes,
        swaps,
        drops,
        repeats,
        loss,
    })
}

#[tactic(auto, unfolding(crate::specs::ScriptText::changes))]
fn read_changes(alloc: Global, fields: &Fields) -> Result<Changes, ScriptFault>
    requires { fields.now.prefix.now ≡ prefix }
    ensures changes { IfOk result (λ cs. changes (place fields.now) ≡ Ok cs) }
    ensures fault { IfErr result (IsFaultOf (changes (place fields.now))) }
{
    let Some(value) = fields.find("set") else {
        return Ok(Changes::none(alloc));
    };
    match changes_of(alloc, value)? {
        Some(changes) => Ok(changes),
        None => Err(ScriptFault::Field(fields.bad("set"))),
    }
}

/// The packet numbers of a field, each at least `gap` more than the one before it.
#[tactic(auto, unfolding(crate::specs::ScriptText::numbers))]
fn read_numbers(
    alloc: Global,
    fields: &Fields,
    name: &str,
    gap: u32,
) -> Result<Numbers, ScriptFault>
    requires prefix { fields.now.prefix.now ≡ prefix }
    requires short { length name.now ≤ 25 }
    requires some { 1 ≤ gap }
    requires few { gap ≤ 2 }
    ensures numbers { IfOk result (λ ns. numbers gap (place fields.now) name.now ≡ Ok ns) }
    ensures apart { IfOk result (λ ns. rises gap 0 ns ≡ true) }
    ensures fault { IfErr result (IsFaultOf (numbers gap (place fields.now) name.now)) }
{
    let Some(value) = fields.find(name) else {
        return Ok(Numbers::none(alloc));
    };
    match numbers_of(alloc, value, gap)? {
        Some(numbers) => Ok(numbers),
        None => Err(ScriptFault::Field(fields.bad(name))),
    }
}

#[tactic(auto, unfolding(crate::specs::ScriptText::loss))]
fn read_loss(fields: &Fields) -> Result<Option<RegularLoss>, FieldName>
    requires { fields.now.prefix.now ≡ prefix }
    ensures value { named result ≡ loss (place fields.now) }
    ensures range { IfOk result (λ o. ForSome o IsLoss) }
{
    let has_until = has(fields, "drop_until");
    let every = fields.optional_number("drop_every", 2, 65_535)?;
    let every = beside(fields, "drop_every", every, has_until)?;
    let has_every = has(fields, "drop_every");
    let until = fields.optional_number("drop_until", 0, 16_777_216)?;
    let until = beside(fields, "drop_until", until, has_every)?;
    Ok(loss_of(every, until))
}

/// Whether there is a field of this name.
fn has(fields: &Fields, name: &str) -> bool
    ensures { result ≡ has (place fields.now) name.now }
{
    fields.find(name).is_some()
}

/// What was found, which is wanted beside another field.
fn beside(
    fields: &Fields,
    name: &str,
    found: Option<u64>,
    other: bool,
) -> Result<Option<u64>, FieldName>
    requires { length fields.now.prefix.now + length name.now ≤ 32 }
    ensures { named result ≡ beside other (fields.now.prefix.now ++ name.now) found }
{
    if found.is_some() || !other {
        Ok(found)
    } else {
        Err(fields.bad(name))
    }
}

fn loss_of(every: Option<u64>, until: Option<u64>) -> Option<RegularLoss>
    requires every { IfSome every (λ e. e ≤ 65535) }
    requires until { IfSome until (λ u. u ≤ 16777216) }
    ensures { result ≡ loss_of every until }
{
    match (every, until) {
        (Some(every), Some(until)) => Some(RegularLoss {
            every: every as u16,
            until: until as u32,
        }),
        _ => None,
    }
}
