//! Sections by the PIDs that are listened to.

ghost use Rattle.std.specs.Prelude.{◌≡◌, ◌<◌, ◌≤◌, ℕ, List, [], ◌∷◌, length, IfOk, IfSome, IfNone, MatchOption, slice_index, true, false, vec_len};

use crate::kept::{are_same, move_kept, place_of, set_pids};
use crate::section_out::SectionOut;
use crate::stream::Stream;
use arrayvec::ArrayVec;
use ssu_io::NoMemory;
use std::alloc::Global;
use std::mem;
use ts_packet::{Packet, Pid, pid_of, read};

/// At most sixteen PIDs.
pub type PidSet = ArrayVec<Pid, 16>;

/// Hears the sections of the PIDs that it listens to, out of the packets of a transport stream.
#[derive(Drop)]
pub struct Hearer {
    pids: PidSet,
    streams: Vec<Stream>,
    spare: Vec<Stream>,
    ghost sixteen: { vec_len streams ≡ 16 },
    ghost sixteen_spare: { vec_len spare ≡ 16 },
}

impl Hearer {
    ghost use Rattle.ts_section.specs.Hearing.{Hears};
    ghost use Rattle.ts_section.specs.Events.{Event, Listen, Feed, heard};

    /// Takes all memory that any calls need. It listens to no PID. `NoMemory` is the one refusal.
    pub fn new(alloc: Global) -> Result<Hearer, NoMemory>
        ensures { IfOk result (λ hearer. Hears hearer []) }
    {
        Ok(Hearer {
            pids: ArrayVec::new(),
            streams: streams(alloc)?,
            spare: streams(alloc)?,
        })
    }

    /// Listens to these PIDs from now on, and to no others. What is kept of a PID that stays is kept.
    pub fn listen(&mut self, pids: &PidSet)
        ensures stands { (events : List Event) → Hears self.old events → Hears self.new (Listen pids.now.items ∷ events) }
    {
        if are_same(&self.pids, pids) {
            return;
        }
        move_kept(&self.pids, pids, &mut self.streams, &mut self.spare);
        mem::swap(&mut self.streams, &mut self.spare);
        set_pids(&mut self.pids, pids);
    }

    /// Takes the next packet, and fills `each` with the right whole sections that become complete in it, in the order
    /// of their starts.
    pub fn feed(&mut self, packet: &Packet, each: &mut SectionOut)
        ensures stands { (events : List Event) → Hears self.old events → Hears self.new (Feed packet.now ∷ events) }
        ensures heard { (events : List Event) → Hears self.old events → each.new ≡ heard (Feed packet.now ∷ events) }
    {
        each.clear();
        let Some(at) = place_of(&self.pids, pid_of(packet).get()) else {
            return;
        };
        let Some(view) = read(packet) else {
            return;
        };
        let stream = &mut self.streams[at];
        stream.take(packet, &view, each);
    }
}

/// The set of this PID alone.
pub fn only(pid: Pid) -> PidSet
    ensures { result.items ≡ pid ∷ [] }
{
    let mut pids = PidSet::new();
    pids.push(pid);
    pids
}

/// Sixteen spans without packets.
fn streams(alloc: Global) -> Result<Vec<Stream>, NoMemory>
    ensures { IfOk result (λ streams. vec_len streams ≡ 16) }
{
    let mut streams = Vec::with_capacity(alloc, 16)?;
    for _ in 0..16usize {
        streams.push(Stream::new())?;
    }
    Ok(streams)
}
