//! PMT: ISO/IEC 13818-1, 2.4.4.8. table_id 0x02, on the PID that the PAT names; one section.

ghost use Rattle.std.specs.Prelude.{◌≡◌, IfSome, Some};
ghost use Rattle.std.specs.Option.{option_map};
ghost use Rattle.wire.specs.Items.{items_of};
ghost use Rattle.wire.specs.Read.{Reads};
ghost use Rattle.si_table.specs.Tables.{PmtFields, pmt, pmt_body, stream};
ghost use Rattle.si_table.specs.Views.{pmt_view};

use crate::fields::pid_at;
use section_form::long;
use si_desc::row_at;
use ts_packet::Pid;
use wire::{Item, Items, u8_at};

/// The streams of a PMT, in its order.
pub type Streams<'a> = Items<'a, Stream<'a>>;

/// An elementary stream.
#[derive(Debug, Drop)]
pub struct Stream<'a> {
    /// stream_type.
    pub kind: u8,
    /// elementary_PID.
    pub pid: Pid,
    /// Its row of descriptors.
    pub info: &'a [u8],
}

impl<'a> Item<'a> for Stream<'a> {
    ghost use Rattle.si_table.specs.Exact.{stream_exact};
    ghost use Rattle.si_table.specs.Tables.{StreamFields, stream};
    ghost use Rattle.si_table.specs.Views.{stream_view};

    ghost Seen = { StreamFields };

    ghost format = { stream };

    ghost exact = { stream_exact };

    ghost view = { stream_view };

    #[tactic(auto, unfolding(crate::specs::Tables::stream))]
    fn at(bytes: &'a [u8]) -> Option<(Self, &'a [u8])> {
        let (kind, rest) = u8_at(bytes)?;
        let Some((pid, rest)) = pid_at(rest) else {
            return None;
        };
        let (info, rest) = row_at(rest)?;
        Some((Stream { kind, pid, info }, rest))
    }
}

/// A program map table.
#[derive(Drop)]
pub struct Pmt<'a> {
    /// program_number.
    pub program: u16,
    /// PCR_PID.
    pub pcr: Pid,
    /// The program's row of descriptors.
    pub info: &'a [u8],
    streams: Streams<'a>,
}

impl<'a> Pmt<'a> {
    /// `None` comes exactly where the section is no PMT.
    pub fn read(section: &'a [u8]) -> Option<Self>
        ensures reads { Reads pmt_view result (pmt.of section.now) }
        // What is answered is spelled so.
        ensures found { IfSome result (λ p. pmt.Spells (pmt_view p) section.now) }
        // What is spelled so is answered.
        ensures only { (p : PmtFields) → pmt.Spells p section.now → option_map pmt_view result ≡ Some p }
    {
        pmt_of(section)
    }

    /// The streams, in order.
    pub fn streams(&self) -> Streams<'a>
        ensures { items_of stream result ≡ (pmt_view self.now).streams }
    {
        self.streams.again()
    }
}

#[derive(Drop)]
struct Body<'a> {
    pcr: Pid,
    info: &'a [u8],
    streams: Streams<'a>,
}

#[tactic(auto, unfolding(crate::specs::Tables::pmt_body))]
fn body_of<'a>(bytes: &'a [u8]) -> Option<Body<'a>>
    ensures { Reads (λ b. (b.pcr, (b.info.now, items_of stream b.streams))) result (pmt_body.of bytes.now) }
{
    let Some((pcr, rest)) = pid_at(bytes) else {
        return None;
    };
    let (info, rest) = row_at(rest)?;
    let streams = Items::to_end(rest)?;
    Some(Body { pcr, info, streams })
}

#[tactic(auto, unfolding(crate::specs::Tables::pmt))]
fn pmt_of<'a>(section: &'a [u8]) -> Option<Pmt<'a>>
    ensures { Reads pmt_view result (pmt.of section.now) }
{
    if section.len() > 1024 {
        return None;
    }
    let form = long(section)?;
    if form.table != 0x02 || form.number != 0 || form.last != 0 {
        return None;
    }
    let Some(body) = body_of(form.body) else {
        return None;
    };
    Some(Pmt {
        program: form.extension,
        pcr: body.pcr,
        info: body.info,
        streams: body.streams,
    })
}
