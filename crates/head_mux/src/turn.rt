//! One turn: the section that is due next is sent.

ghost use Rattle.std.specs.Prelude.{◌≡◌, ℕ, ◌+◌, ◌<◌, ◌≤◌, ◌++◌, None, Some, IfOk, OnOk, OnErr, IsSome, map, length, slice_index, slice_set};
ghost use Rattle.std.specs.List.{All, concat};
ghost use Rattle.ssu_io.specs.Bytes.{GainsPrefix};
ghost use Rattle.ssu_io.specs.Faults.{HasCause};
ghost use Rattle.ssu_io.specs.SinkBuffer.{MovesOn};
ghost use Rattle.ts_section.specs.Cut.{cut_packets, next_counter};
ghost use Rattle.due_wheel.specs.Due.{due_of, IsLeast};
ghost use Rattle.head_mux.specs.Sent.{IsSendable, section_at, section_of_turn, dues_before};

use crate::packing::put_section;
use due_wheel::{Steps, Wheel};
use ssu_io::{Failed, Sink, SinkBuffer};
use std::sync::ledger::Ledger;
use ts_section::{Timed, packet_count};

/// Sends the section that is due next in turn `t`, and answers the number of its packets. `wheel` has the due number of
/// each section by its index, and `counters` the counter of the next packet of each PID.
pub(crate) fn send_turn<W: Sink, L: Ledger>(
    list: &[Timed],
    t: u32,
    wheel: &mut Wheel,
    counters: &mut [u8],
    steps: &mut Steps<L>,
    buffer: &mut SinkBuffer,
    sink: &mut W,
) -> Result<u64, Failed>
    requires some { 1 ≤ length list.now }
    requires few { length list.now ≤ 65536 }
    requires sendable { All IsSendable list.now }
    requires dues { wheel.old.dues ≡ map (λ due. Some due) (dues_before list.now t) }
    requires pids { length counters.old ≡ 8192 }
    requires counters { (pid : ℕ) → pid < 8192 → slice_index counters.old pid < 16 }
    ensures ok { let section = section_of_turn list.now t in
        OnOk result (MovesOn (W.contents sink.old) (W.contents sink.new) buffer.old
        (concat (cut_packets section.bytes section.pid (slice_index counters.old section.pid))) buffer.new) }
    ensures failed { let section = section_of_turn list.now t in
        OnErr result (GainsPrefix (W.contents sink.old) (W.contents sink.new)
        (buffer.old ++ concat (cut_packets section.bytes section.pid (slice_index counters.old section.pid)))) }
    ensures cause { HasCause (W.faults sink.old) (W.faults sink.new) result }
    ensures count { let section = section_of_turn list.now t in
        IfOk result (λ n. n ≡ length (cut_packets section.bytes section.pid (slice_index counters.old section.pid))) }
    ensures few { IfOk result (λ n. n ≤ 23) }
    ensures pid { (section_of_turn list.now t).pid < 8192 }
    ensures due { OnOk result (wheel.new.dues ≡ map (λ due. Some due) (dues_before list.now (t + 1))) }
    ensures counted { let section = section_of_turn list.now t in
        OnOk result (counters.new
        ≡ slice_set counters.old section.pid (next_counter section.bytes (slice_index counters.old section.pid))) }
{
    let index = take_next(wheel, steps);
    let count = send_section(list, index as usize, counters, buffer, sink)?;
    let section = &list[index as usize];
    wheel.put_counted(index, u64::from(t) + u64::from(section.period), steps);
    Ok(count)
}

/// Sends the section at an index, and answers the number of its packets.
fn send_section<W: Sink>(
    list: &[Timed],
    index: usize,
    counters: &mut [u8],
    buffer: &mut SinkBuffer,
    sink: &mut W,
) -> Result<u64, Failed>
    requires index { index < length list.now }
    requires sendable { All IsSendable list.now }
    requires pids { length counters.old ≡ 8192 }
    requires counters { (pid : ℕ) → pid < 8192 → slice_index counters.old pid < 16 }
    ensures ok { let section = section_at list.now index in
        OnOk result (MovesOn (W.contents sink.old) (W.contents sink.new) buffer.old
        (concat (cut_packets section.bytes section.pid (slice_index counters.old section.pid))) buffer.new) }
    ensures failed { let section = section_at list.now index in
        OnErr result (GainsPrefix (W.contents sink.old) (W.contents sink.new)
        (buffer.old ++ concat (cut_packets section.bytes section.pid (slice_index counters.old section.pid)))) }
    ensures cause { HasCause (W.faults sink.old) (W.faults sink.new) result }
    ensures count { let section = section_at list.now index in
        IfOk result (λ n. n ≡ length (cut_packets section.bytes section.pid (slice_index counters.old section.pid))) }
    ensures few { IfOk result (λ n. n ≤ 23) }
    ensures pid { (section_at list.now index).pid < 8192 }
    ensures counted { let section = section_at list.now index in
        OnOk result (counters.new
        ≡ slice_set counters.old section.pid (next_counter section.bytes (slice_index counters.old section.pid))) }
{
    let section = &list[index];
    let pid = section.pid.get() as usize;
    let counter = counters[pid];
    put_section(&section.bytes, section.pid, counter, buffer, sink)?;
    let count = packet_count(&section.bytes);
    counters[pid] = ((counter as usize + count) % 16) as u8;
    Ok(count as u64)
}

/// Takes out the index of the section that is due next.
fn take_next<L: Ledger>(wheel: &mut Wheel, steps: &mut Steps<L>) -> u32
    requires { IsSome (due_of wheel.old.dues 0) }
    ensures least { (due : ℕ) × IsLeast wheel.old.dues result due }
    ensures dues { wheel.new.dues ≡ slice_set wheel.old.dues result None }
{
    match wheel.take_least_counted(steps) {
        Some((index, _)) => index,
        None => unreachable!(),
    }
}
