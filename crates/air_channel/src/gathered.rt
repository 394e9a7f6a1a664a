//! Packets for a sink, gathered into large pieces without memory.
ghost use Rattle.std.specs.Prelude.{◌≡◌, [], ◌++◌, length, OnOk, OnErr};
ghost use Rattle.ssu_io.specs.Bytes.{Gains, GainsPrefix};
ghost use Rattle.ssu_io.specs.Faults.{HasCause};
ghost use Rattle.ssu_io.specs.SinkBuffer.{MovesOn};

use arrayvec::ArrayVec;
use ssu_io::{Failed, Sink};
use std::marker::Model;

/// Packets that wait to be put into a sink. A contract sees their bytes.
#[derive(Drop)]
pub(crate) struct Gathered {
    /// At most 348 packets.
    bytes: ArrayVec<u8, 65_424>,
}

impl Model for Gathered {
    ghost use Rattle.std.specs.Prelude.{ℕ, List};

    ghost Value = { List ℕ };

    ghost view = { λ g. g.bytes.items };
}

impl Gathered {
    /// Nothing waits yet.
    pub(crate) fn new() -> Gathered
        ensures { result ≡ [] }
    {
        Gathered {
            bytes: ArrayVec::new(),
        }
    }

    /// Puts the packet behind what waits. Where there is no room for it, what waits goes into the sink.
    pub(crate) fn put<W: Sink>(&mut self, sink: &mut W, packet: &[u8; 188]) -> Result<(), Failed>
        ensures ok { OnOk result (MovesOn (W.contents sink.old) (W.contents sink.new) self.old packet.now self.new) }
        ensures failed { OnErr result (GainsPrefix (W.contents sink.old) (W.contents sink.new) (self.old ++ packet.now)) }
        ensures cause { HasCause (W.faults sink.old) (W.faults sink.new) result }
    {
        if self.bytes.try_extend_from_slice(packet).is_ok() {
            return Ok(());
        }
        self.flush(sink)?;
        let _ = self.bytes.try_extend_from_slice(packet);
        Ok(())
    }

    /// Puts all that waits into the sink.
    pub(crate) fn flush<W: Sink>(&mut self, sink: &mut W) -> Result<(), Failed>
        ensures ok { OnOk result (Gains (W.contents sink.old) (W.contents sink.new) self.old) }
        ensures failed { OnErr result (GainsPrefix (W.contents sink.old) (W.contents sink.new) self.old) }
        ensures empty { self.new ≡ [] }
        ensures cause { HasCause (W.faults sink.old) (W.faults sink.new) result }
    {
        if self.bytes.is_empty() {
            return Ok(());
        }
        let done = sink.put(self.bytes.as_slice());
        self.bytes.clear();
        done
    }
}
