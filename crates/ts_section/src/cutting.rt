//! A section cut into packets: ISO/IEC 13818-1, 2.4.3.2, 2.4.3.3 and 2.4.4.

ghost use Rattle.std.specs.Prelude.{◌≡◌, ◌≢◌, ◌<◌, ◌≤◌, ◌++◌, [], ◌∷◌, List, IfOk, OnOk, OnErr, length, slice_index, true};
ghost use Rattle.std.specs.List.{concat};
ghost use Rattle.section_form.specs.Section.{IsRightSection};
ghost use Rattle.ts_section.specs.Cut.{cut_packets, next_counter, Begins};
ghost use Rattle.ts_section.specs.Events.{Event, is_listened, span, heard_of};

use crate::section_packets::{packet_count, packets_of};
use ssu_io::NoMemory;
use ts_packet::Pid;

/// Appends the packets of a section, of 3 to 4,096 bytes of which the first is not 0xFF, to `out`, with counters from
/// this one on, which is below 16, and answers the counter that comes next. `NoMemory` is the one refusal, and leaves
/// `out` as it was.
///
/// The packets are those of `packets_of`: the pointer_field 0 and the first 183 bytes stand in the first packet, 184
/// bytes in each further one; the last one is filled up with 0xFF. Only the first packet has the start flag.
pub fn cut(section: &[u8], pid: Pid, counter: u8, out: &mut Vec<u8>) -> Result<u8, NoMemory>
    requires least { 3 ≤ length section.now }
    requires most { length section.now ≤ 4096 }
    requires first { slice_index section.now 0 ≢ 0xFF }
    requires counter { counter < 16 }
    ensures ok { OnOk result (out.new.items ≡ out.old.items ++ concat (cut_packets section.now pid counter)) }
    ensures next { IfOk result (λ next. next ≡ next_counter section.now counter) }
    ensures err { OnErr result (out.new.items ≡ out.old.items) }

    // A hearer that listens to the PID, and was fed no usable packet of it since it began to, gives a right section back.
    ensures heard { (events : List Event) → is_listened pid events ≡ true → span pid events ≡ []
        → IsRightSection section.now → heard_of events (cut_packets section.now pid counter) ≡ section.now ∷ [] }
{
    prove!(pid.get() < 8192);
    let len = out.len();
    if let Err(short) = append_packets(section, pid, counter, out) {
        out.truncate(len);
        return Err(short);
    }
    let next = (counter as usize + packet_count(section)) % 16;
    Ok(next as u8)
}

/// Appends the packets of a section. After a refusal some of them may stand in `out`.
fn append_packets(section: &[u8], pid: Pid, counter: u8, out: &mut Vec<u8>) -> Result<(), NoMemory>
    requires counter { counter < 16 }
    ensures ok { OnOk result (out.new.items ≡ out.old.items ++ concat (cut_packets section.now pid counter)) }
    ensures err { OnErr result (Begins out.old.items out.new.items) }
{
    for packet in packets_of(section, pid, counter) {
        out.extend_from_slice(&packet)?;
    }
    Ok(())
}
