//! All turns, and the memory that they need.

ghost use Rattle.std.specs.Prelude.{◌≡◌, ℕ, ◌+◌, ◌<◌, ◌≤◌, [], None, Some, Err, IfOk, OnOk, OnErr, min, map, replicate, length, slice_index, vec_len};
ghost use Rattle.std.specs.List.{All, concat, range_with_len};
ghost use Rattle.std.specs.Result.{IsErrOf};
ghost use Rattle.ssu_io.specs.Bytes.{Gains, GainsPrefix};
ghost use Rattle.ssu_io.specs.Faults.{HasCause, Rose};
ghost use Rattle.ssu_io.specs.SinkBuffer.{MovesOn};
ghost use Rattle.head_mux.specs.Sent.{counters_of, GoOn, IsSendable, section_of_turn, sent, greatest_period};
ghost use Rattle.head_mux.specs.declared.fault.MuxFault.TheVariants.{WriteFault, Memory};

use crate::MuxFault;
use crate::turn::send_turn;
use due_wheel::{Steps, Wheel};
use ssu_io::{Failed, NoMemory, Sink, SinkBuffer};
use std::alloc::Global;
use std::marker::Brand;
use std::sync::ledger::{Blank, Ledger};
use ts_section::Timed;

/// How many PIDs there are.
const PIDS: usize = 8192;

/// The most buckets of a wheel.
const MOST_SLOTS: u64 = 131_072;

/// Puts the packets of so many turns into the sink, and answers their number.
///
/// Each turn sends one section: of those with the least due number the first in the list. The due number of a section is
/// at first its index, and after turn t, from 0, the number t and the section's period. The counters of each PID start at
/// 0. All memory is taken before the first packet is put, and packets are put in pieces of many.
///
/// # Errors
///
/// `WriteFault` where the sink failed: it got a prefix of the packets. `Memory` where memory ran out: the sink is
/// unchanged.
pub fn mux<W: Sink>(
    alloc: Global,
    list: &[Timed],
    turns: u32,
    sink: &mut W,
) -> Result<u64, MuxFault>
    requires some { 1 ≤ length list.now }
    requires few { length list.now ≤ 65536 }
    requires sendable { All IsSendable list.now }
    ensures ok { OnOk result (Gains (W.contents sink.old) (W.contents sink.new) (concat (sent list.now turns))) }
    ensures count { IfOk result (λ n. n ≡ length (sent list.now turns)) }
    ensures whole { OnOk result (All (λ packet. length packet ≡ 188) (sent list.now turns)) }
    ensures counters { OnOk result ((pid : ℕ) → GoOn 0 (counters_of pid (sent list.now turns))) }
    ensures write_fault { IsErrOf result WriteFault
        → GainsPrefix (W.contents sink.old) (W.contents sink.new) (concat (sent list.now turns)) }
    ensures cause { IsErrOf result WriteFault → Rose (W.faults sink.old) (W.faults sink.new) }
    ensures memory { IsErrOf result Memory → sink.new ≡ sink.old }
    ensures later { W.faults sink.old ≤ W.faults sink.new }
{
    let mut wheel = Wheel::new(alloc, list.len() as u32, slots_for(list))?;
    let mut counters = zeros(alloc, PIDS)?;
    let mut buffer = SinkBuffer::new(alloc)?;
    let count = send_all::<W, Brand>(
        list,
        turns,
        &mut wheel,
        counters.as_mut_slice(),
        Blank::new(1),
        &mut buffer,
        sink,
    )?;
    buffer.flush(sink)?;
    Ok(count)
}

/// How many buckets the wheel has.
fn slots_for(list: &[Timed]) -> u32
    ensures is { result ≡ min (greatest_period list.now + 1) 131072 }
    ensures some { 1 ≤ result }
{
    let mut greatest = 0;
    for section in list {
        greatest = section.period.max(greatest);
    }
    (u64::from(greatest) + 1).min(MOST_SLOTS) as u32
}

/// Sends so many turns from an empty wheel, of which the last packets may wait in the buffer, and answers the number of
/// packets.
fn send_all<W: Sink, L: Ledger>(
    list: &[Timed],
    turns: u32,
    wheel: &mut Wheel,
    counters: &mut [u8],
    blank: Blank,
    buffer: &mut SinkBuffer,
    sink: &mut W,
) -> Result<u64, Failed>
    requires name { blank.name ≡ L.name }
    requires parts { blank.parts ≡ L.parts }
    requires a_part { 0 < L.parts }
    requires some { 1 ≤ length list.now }
    requires few { length list.now ≤ 65536 }
    requires sendable { All IsSendable list.now }
    requires dues { wheel.old.dues ≡ replicate (length list.now) None }
    requires pids { length counters.old ≡ 8192 }
    requires counters { (pid : ℕ) → slice_index counters.old pid ≡ 0 }
    requires waiting { buffer.old ≡ [] }
    ensures ok { OnOk result (MovesOn (W.contents sink.old) (W.contents sink.new) []
        (concat (sent list.now turns)) buffer.new) }
    ensures failed { OnErr result (GainsPrefix (W.contents sink.old) (W.contents sink.new)
        (concat (sent list.now turns))) }
    ensures count { IfOk result (λ n. n ≡ length (sent list.now turns)) }
    ensures pids { OnOk result ((t : ℕ) → t < turns → (section_of_turn list.now t).pid < 8192) }
    ensures cause { HasCause (W.faults sink.old) (W.faults sink.new) result }
{
    let mut steps = Steps::<L>::new(blank);
    put_indices(wheel, list.len() as u32, &mut steps);
    send_turns(list, turns, wheel, counters, &mut steps, buffer, sink)
}

/// Puts each index below `items` in, with itself as its due number.
fn put_indices<L: Ledger>(wheel: &mut Wheel, items: u32, steps: &mut Steps<L>)
    requires { wheel.old.dues ≡ replicate items None }
    ensures { wheel.new.dues ≡ map (λ due. Some due) (range_with_len 0 items) }
{
    for item in 0..items {
        wheel.put_counted(item, u64::from(item), steps);
    }
}

/// Sends so many turns, of which the last packets may wait in the buffer, and answers the number of packets.
fn send_turns<W: Sink, L: Ledger>(
    list: &[Timed],
    turns: u32,
    wheel: &mut Wheel,
    counters: &mut [u8],
    steps: &mut Steps<L>,
    buffer: &mut SinkBuffer,
    sink: &mut W,
) -> Result<u64, Failed>
    requires some { 1 ≤ length list.now }
    requires few { length list.now ≤ 65536 }
    requires sendable { All IsSendable list.now }
    requires dues { wheel.old.dues ≡ map (λ due. Some due) (range_with_len 0 (length list.now)) }
    requires pids { length counters.old ≡ 8192 }
    requires counters { (pid : ℕ) → slice_index counters.old pid ≡ 0 }
    requires waiting { buffer.old ≡ [] }
    ensures ok { OnOk result (MovesOn (W.contents sink.old) (W.contents sink.new) []
        (concat (sent list.now turns)) buffer.new) }
    ensures failed { OnErr result (GainsPrefix (W.contents sink.old) (W.contents sink.new)
        (concat (sent list.now turns))) }
    ensures count { IfOk result (λ n. n ≡ length (sent list.now turns)) }
    ensures pids { OnOk result ((t : ℕ) → t < turns → (section_of_turn list.now t).pid < 8192) }
    ensures cause { HasCause (W.faults sink.old) (W.faults sink.new) result }
{
    let mut count = 0;
    for t in 0..turns {
        let packets = send_turn(list, t, wheel, counters, steps, buffer, sink)?;
        count += packets;
    }
    Ok(count)
}

/// So many zeros.
fn zeros(alloc: Global, n: usize) -> Result<Vec<u8>, NoMemory>
    ensures len { IfOk result (λ counters. vec_len counters ≡ n) }
    ensures zero { IfOk result (λ counters. (pid : ℕ) → slice_index counters.items pid ≡ 0) }
{
    let mut counters = Vec::new(alloc);
    counters.resize(n, 0)?;
    Ok(counters)
}
