//! TDT and TOT: ETSI EN 300 468, 5.2.5 and 5.2.6. table_id 0x70 and 0x73, PID 0x0014.

ghost use Rattle.std.specs.Prelude.{◌≡◌, IfSome, Some};
ghost use Rattle.std.specs.Option.{option_map};
ghost use Rattle.wire.specs.Read.{Reads};
ghost use Rattle.ssu_time.specs.UtcField.{TimeFields, time_view};
ghost use Rattle.si_table.specs.Times.{TotFields, short_head, tdt, tot, tot_inside};
ghost use Rattle.si_table.specs.Views.{tdt_view, tot_view};

use si_desc::row_at;
use ssu_time::{Utc, utc_at};
use ts_crc::crc;
use wire::{raw_at, u8_at, u16_at};

/// A time and date table.
#[derive(Clone, Copy, Debug, PartialEq, Eq)]
pub struct Tdt {
    /// UTC_time.
    pub time: Utc,
}

impl Tdt {
    /// `None` comes exactly where the section is no TDT.
    pub fn read(section: &[u8]) -> Option<Self>
        ensures reads { Reads tdt_view result (tdt.of section.now) }
        // What is answered is spelled so.
        ensures found { IfSome result (λ t. tdt.Spells (tdt_view t) section.now) }
        // What is spelled so is answered.
        ensures only { (t : TimeFields) → tdt.Spells t section.now → option_map tdt_view result ≡ Some t }
    {
        tdt_of(section)
    }
}

/// A time offset table.
#[derive(Clone, Copy, Debug)]
pub struct Tot<'a> {
    /// UTC_time.
    pub time: Utc,
    /// Its row of descriptors.
    pub info: &'a [u8],
}

impl<'a> Tot<'a> {
    /// `None` comes exactly where the section is no TOT, also where its CRC is not 0.
    pub fn read(section: &'a [u8]) -> Option<Self>
        ensures reads { Reads tot_view result (tot.of section.now) }
        // What is answered is spelled so.
        ensures found { IfSome result (λ t. tot.Spells (tot_view t) section.now) }
        // What is spelled so is answered.
        ensures only { (t : TotFields) → tot.Spells t section.now → option_map tot_view result ≡ Some t }
    {
        tot_of(section)
    }
}

/// section_length, behind section_syntax_indicator 0.
#[tactic(auto, unfolding(crate::specs::Times::short_head))]
fn short_head_at(bytes: &[u8]) -> Option<(u16, &[u8])>
    ensures { Reads (λ x. (x.0, x.1.now)) result (short_head.at bytes.now) }
{
    let (head, rest) = u16_at(bytes)?;
    if head / 0x8000 == 0 {
        return Some((head % 4096, rest));
    }
    None
}

#[tactic(auto, unfolding(crate::specs::Times::tdt))]
fn tdt_of(section: &[u8]) -> Option<Tdt>
    ensures { Reads tdt_view result (tdt.of section.now) }
{
    let (table, rest) = u8_at(section)?;
    if table != 0x70 {
        return None;
    }
    let (length, rest) = short_head_at(rest)?;
    let (inside, rest) = raw_at(rest, length as usize)?;
    let Some((time, behind)) = utc_at(inside) else {
        return None;
    };
    if !behind.is_empty() || !rest.is_empty() {
        return None;
    }
    Some(Tdt { time })
}

#[tactic(auto, unfolding(crate::specs::Times::tot_inside))]
fn tot_inside_of<'a>(bytes: &'a [u8]) -> Option<Tot<'a>>
    ensures { Reads (λ t. (time_view t.time, t.info.now)) result (tot_inside.of bytes.now) }
{
    if bytes.len() < 4 {
        return None;
    }
    let front = &bytes[..bytes.len() - 4];
    let Some((time, rest)) = utc_at(front) else {
        return None;
    };
    let (info, rest) = row_at(rest)?;
    if !rest.is_empty() {
        return None;
    }
    Some(Tot { time, info })
}

#[tactic(auto, unfolding(crate::specs::Times::tot))]
fn tot_of<'a>(section: &'a [u8]) -> Option<Tot<'a>>
    ensures { Reads tot_view result (tot.of section.now) }
{
    if section.len() > 1024 || crc(section) != 0 {
        return None;
    }
    let (table, rest) = u8_at(section)?;
    if table != 0x73 {
        return None;
    }
    let (length, rest) = short_head_at(rest)?;
    let (inside, rest) = raw_at(rest, length as usize)?;
    let Some(tot) = tot_inside_of(inside) else {
        return None;
    };
    if !rest.is_empty() {
        return None;
    }
    Some(tot)
}
