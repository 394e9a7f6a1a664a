//! Pieces for a sink, gathered into larger ones.
ghost use Rattle.std.specs.Prelude.{◌≡◌, ◌≤◌, [], ◌+◌, ◌++◌, length, vec_len, vec_capacity, IfOk, OnOk, OnErr};
ghost use Rattle.ssu_io.specs.Bytes.{Gains, GainsPrefix};
ghost use Rattle.ssu_io.specs.Faults.{HasCause};
ghost use Rattle.ssu_io.specs.SinkBuffer.{MovesOn};

use crate::{Failed, NoMemory, Sink};
use std::alloc::Global;
use std::marker::Model;

/// How many bytes wait at most.
const ROOM: usize = 1 << 16;

/// Bytes that wait to be put into a sink. A contract sees them as a list.
#[derive(Drop)]
pub struct SinkBuffer {
    bytes: Vec<u8>,
}

impl Model for SinkBuffer {
    ghost use Rattle.std.specs.Prelude.{◌≤◌, ◌^◌, ℕ, List, vec_len, vec_capacity};

    ghost Value = { List ℕ };

    ghost view = { λ b. b.bytes.items };

    ghost invariant = { λ b. (vec_len b.bytes ≤ 2 ^ 16) × (2 ^ 16 ≤ vec_capacity b.bytes) };
}

impl SinkBuffer {
    /// Takes memory for 64 KiB. Nothing waits yet. `NoMemory` is the one refusal.
    pub fn new(alloc: Global) -> Result<SinkBuffer, NoMemory>
        ensures { IfOk result (λ buffer. buffer ≡ []) }
    {
        Ok(SinkBuffer {
            bytes: Vec::with_capacity(alloc, ROOM)?,
        })
    }

    /// Puts the piece behind what waits. Where there is no room for it, what waits goes into the sink, and a piece of
    /// more than 64 KiB after it. `Failed` comes only where the sink failed and its count of faults rose; nothing
    /// waits then.
    pub fn put<W: Sink>(&mut self, sink: &mut W, piece: &[u8]) -> Result<(), Failed>
        ensures ok { OnOk result (MovesOn (W.contents sink.old) (W.contents sink.new) self.old piece.now self.new) }
        ensures failed { OnErr result (GainsPrefix (W.contents sink.old) (W.contents sink.new) (self.old ++ piece.now)) }
        // After a fault nothing waits: what did not go into the sink is lost.
        ensures none_waits { OnErr result (self.new ≡ []) }
        ensures cause { HasCause (W.faults sink.old) (W.faults sink.new) result }
    {
        if piece.len() <= ROOM - self.bytes.len() {
            keep(&mut self.bytes, piece);
            return Ok(());
        }
        self.flush(sink)?;
        if piece.len() > ROOM {
            return sink.put(piece);
        }
        keep(&mut self.bytes, piece);
        Ok(())
    }

    /// Puts all that waits into the sink. `Failed` comes only where the sink failed and its count of faults rose.
    /// Nothing waits then, whatever it answers.
    pub fn flush<W: Sink>(&mut self, sink: &mut W) -> Result<(), Failed>
        ensures ok { OnOk result (Gains (W.contents sink.old) (W.contents sink.new) self.old) }
        ensures failed { OnErr result (GainsPrefix (W.contents sink.old) (W.contents sink.new) self.old) }
        ensures empty { self.new ≡ [] }
        ensures cause { HasCause (W.faults sink.old) (W.faults sink.new) result }
    {
        put_all(&mut self.bytes, sink)
    }
}

/// Puts the bytes into the sink, in one piece where there are any, and forgets them.
fn put_all<W: Sink>(bytes: &mut Vec<u8>, sink: &mut W) -> Result<(), Failed>
    ensures ok { OnOk result (Gains (W.contents sink.old) (W.contents sink.new) bytes.old.items) }
    ensures failed { OnErr result (GainsPrefix (W.contents sink.old) (W.contents sink.new) bytes.old.items) }
    ensures empty { bytes.new.items ≡ [] }
    ensures room { vec_capacity bytes.new ≡ vec_capacity bytes.old }
    ensures cause { HasCause (W.faults sink.old) (W.faults sink.new) result }
{
    if bytes.is_empty() {
        return Ok(());
    }
    let done = sink.put(bytes);
    bytes.clear();
    done
}

/// Appends the piece, for which there is room.
fn keep(bytes: &mut Vec<u8>, piece: &[u8])
    requires { vec_len bytes.old + length piece.now ≤ vec_capacity bytes.old }
    ensures kept { bytes.new.items ≡ bytes.old.items ++ piece.now }
    ensures room { vec_capacity bytes.old ≤ vec_capacity bytes.new }
{
    let _ = bytes.extend_from_slice(piece);
}
