//! The packets of one section, put behind one another: ISO/IEC 13818-1, 2.4.3.2, 2.4.3.3 and 2.4.4.

ghost use Rattle.std.specs.Prelude.{◌<◌, ◌++◌, OnOk, OnErr};
ghost use Rattle.std.specs.List.{concat};
ghost use Rattle.ssu_io.specs.Bytes.{GainsPrefix};
ghost use Rattle.ssu_io.specs.Faults.{HasCause};
ghost use Rattle.ssu_io.specs.SinkBuffer.{MovesOn};
ghost use Rattle.ts_section.specs.Cut.{cut_packets};

use ssu_io::{Failed, Sink, SinkBuffer};
use ts_packet::Pid;
use ts_section::packets_of;

/// Puts the packets of a section, with counters from this one on.
pub(crate) fn put_section<W: Sink>(
    section: &[u8],
    pid: Pid,
    counter: u8,
    buffer: &mut SinkBuffer,
    sink: &mut W,
) -> Result<(), Failed>
    requires counter { counter < 16 }
    ensures ok { OnOk result (MovesOn (W.contents sink.old) (W.contents sink.new) buffer.old
        (concat (cut_packets section.now pid counter)) buffer.new) }
    ensures failed { OnErr result (GainsPrefix (W.contents sink.old) (W.contents sink.new)
        (buffer.old ++ concat (cut_packets section.now pid counter))) }
    ensures cause { HasCause (W.faults sink.old) (W.faults sink.new) result }
{
    for packet in packets_of(section, pid, counter) {
        buffer.put(sink, &packet)?;
    }
    Ok(())
}
