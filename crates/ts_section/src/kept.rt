//! The streams of the PIDs that stay in the set.

ghost use Rattle.std.specs.Prelude.{◌≡◌, ◌≢◌, ◌<◌, ◌≤◌, ℕ, length, IfSome, IsTrue, MatchOption, slice_index, slice_index_or, slice_set, true, false, vec_len};
ghost use Rattle.ts_section.specs.declared.stream.Stream.{Stream as KeptStream};
ghost use Rattle.ts_section.specs.Hearing.{IsFirst, IsFresh};
ghost use Rattle.ts_section.specs.Events.{is_among};

use crate::hearer::PidSet;
use crate::stream::Stream;
use std::mem;
use ts_packet::Pid;

/// The first place of the PID in the set.
pub(crate) fn place_of(pids: &PidSet, pid: u16) -> Option<usize>
    ensures found { IfSome result (λ at. IsFirst pids.now.items pid at) }
    ensures within { IfSome result (λ at. at < 16) }
    ensures among { MatchOption result (is_among pid pids.now.items ≡ false) (λ at. is_among pid pids.now.items ≡ true) }
{
    for (at, known) in pids.iter().enumerate() {
        if known.get() == pid {
            return Some(at);
        }
    }
    None
}

/// Whether both have the same PIDs in the same order.
pub(crate) fn are_same(one: &[Pid], other: &[Pid]) -> bool
    ensures { IsTrue result → one.now ≡ other.now }
{
    if one.len() != other.len() {
        return false;
    }
    for k in 0..one.len() {
        if one[k].get() != other[k].get() {
            return false;
        }
    }
    true
}

/// Makes the set hold these PIDs.
pub(crate) fn set_pids(known: &mut PidSet, pids: &PidSet)
    ensures { known.new.items ≡ pids.now.items }
{
    known.clear();
    let _ = known.try_extend_from_slice(pids.as_slice());
}

/// Moves what is kept of each PID that stays into `spare`, at the PID's place in the new set, and begins a new span
/// there for each other PID.
pub(crate) fn move_kept(
    known: &PidSet,
    pids: &PidSet,
    streams: &mut Vec<Stream>,
    spare: &mut Vec<Stream>,
)
    requires sixteen { vec_len streams.old ≡ 16 }
    requires sixteen_spare { vec_len spare.old ≡ 16 }
    ensures kept { (pid at from : ℕ) (other : KeptStream) → IsFirst pids.now.items pid at → IsFirst known.now.items pid from
        → slice_index_or spare.new.items at other ≡ slice_index_or streams.old.items from other }
    ensures fresh { (pid at : ℕ) (other : KeptStream) → IsFirst pids.now.items pid at → is_among pid known.now.items ≡ false
        → IsFresh (slice_index_or spare.new.items at other) }
    ensures sixteen { vec_len streams.new ≡ 16 }
    ensures sixteen_spare { vec_len spare.new ≡ 16 }
{
    for at in 0..pids.len() {
        move_one(known, pids[at].get(), at, streams, spare);
    }
}

/// Moves what is kept of the PID into `spare`, or begins a new span there.
fn move_one(known: &PidSet, pid: u16, at: usize, streams: &mut Vec<Stream>, spare: &mut Vec<Stream>)
    requires sixteen { vec_len streams.old ≡ 16 }
    requires sixteen_spare { vec_len spare.old ≡ 16 }
    requires within { at < 16 }
    ensures kept { (from : ℕ) (other : KeptStream) → IsFirst known.now.items pid from
        → slice_index_or spare.new.items at other ≡ slice_index_or streams.old.items from other }
    ensures fresh { (other : KeptStream) → is_among pid known.now.items ≡ false → IsFresh (slice_index_or spare.new.items at other) }
    ensures others { (k : ℕ) (other : KeptStream) → slice_index known.now.items k ≢ pid
        → slice_index_or streams.new.items k other ≡ slice_index_or streams.old.items k other }
    ensures others_spare { (k : ℕ) (other : KeptStream) → k ≢ at
        → slice_index_or spare.new.items k other ≡ slice_index_or spare.old.items k other }
    ensures sixteen { vec_len streams.new ≡ 16 }
    ensures sixteen_spare { vec_len spare.new ≡ 16 }
{
    match place_of(known, pid) {
        Some(from) => mem::swap(&mut streams[from], &mut spare[at]),
        None => {
            let stream = &mut spare[at];
            stream.reset();
        }
    }
}
