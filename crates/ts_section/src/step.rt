//! How one packet goes on with the open text and what starts in it: ISO/IEC 13818-1, 2.4.3.3 and 2.4.4.

ghost use Rattle.std.specs.Prelude.{◌≡◌, ◌+◌, ◌*◌, ◌%◌, ◌<◌, ◌≤◌, [], ◌∷◌, ◌++◌, length, true, if◌then◌else◌, IsTrue};
ghost use Rattle.ts_packet.specs.Packet.{usable, shown, InRange};
ghost use Rattle.ts_section.specs.Sections.{repeats as repeat_test, has_section};
ghost use Rattle.ts_section.specs.Steps.{step_to, open_after, right_after, right_of, unfinished, longer, own_starts, added_by, as_open};

use crate::section_out::SectionOut;
use crate::starts::{keep_rest, put_whole, rest_from, whole_len};
use arrayvec::ArrayVec;
use ts_packet::{Packet, View, read};

/// How a packet stands to the usable packet of its PID before it.
#[derive(Clone, Copy, Debug, PartialEq, Eq)]
pub(crate) enum Step {
    /// Counter, start flag and payload are equal.
    Repeat,
    /// The counter goes on by 1 modulo 16.
    Next,
    /// There is none before it, or packets were lost.
    Lost,
}

#[tactic(auto, unfolding(crate::specs::Sections::counts_on))]
pub(crate) fn step_of(last: &Packet, y: &View<'_>) -> Step
    ensures { result ≡ step_to (usable last.now) (shown y.now) }
{
    let Some(p) = read(last) else {
        return Step::Lost;
    };
    if repeats(&p, y) {
        return Step::Repeat;
    }
    if u16::from(y.counter) == (u16::from(p.counter) + 1) % 16 {
        return Step::Next;
    }
    Step::Lost
}

#[tactic(auto, unfolding(crate::specs::Sections::repeats))]
fn repeats(p: &View<'_>, q: &View<'_>) -> bool
    ensures { result ≡ repeat_test (shown p.now) (shown q.now) }
{
    q.counter == p.counter && q.start == p.start && q.payload == p.payload
}

#[tactic(auto, unfolding(crate::specs::Steps::open_after, crate::specs::Steps::right_after))]
pub(crate) fn advance(
    step: Step,
    text: &mut ArrayVec<u8, 4288>,
    y: &View<'_>,
    each: &mut SectionOut,
)
    requires short { length text.old.items ≤ 4097 }
    requires ranges { InRange (shown y.now) }
    requires empty { each.old ≡ [] }
    ensures text { as_open text.new.items ≡ open_after step (as_open text.old.items) (shown y.now) }
    ensures heard { each.new ≡ right_after step (as_open text.old.items) (shown y.now) }
    ensures short { length text.new.items ≤ 4097 }
{
    match step {
        Step::Repeat => {}
        Step::Next => {
            go_on(text, y, each);
            begin(text, y, each);
        }
        Step::Lost => {
            text.clear();
            begin(text, y, each);
        }
    }
}

/// Adds what the next packet has of the open text, and closes a text that is whole or ends here.
#[tactic(auto, using(crate::proofs::Sets::texts), unfolding(crate::specs::Steps::right_of))]
fn go_on(text: &mut ArrayVec<u8, 4288>, y: &View<'_>, each: &mut SectionOut)
    requires short { length text.old.items ≤ 4097 }
    requires ranges { InRange (shown y.now) }
    requires empty { each.old ≡ [] }
    ensures text { as_open text.new.items
        ≡ (if y.now.start then [] else unfinished (longer (shown y.now) (as_open text.old.items))) }
    ensures heard { each.new ≡ right_of (longer (shown y.now) (as_open text.old.items)) }
    ensures short { length text.new.items ≤ 4097 }
    ensures room { length each.new ≤ 1 }
{
    if text.is_empty() {
        return;
    }
    append(text, added(y));
    close_whole(text, each);
    end_at_start(text, y.start);
}

/// What a next packet adds to an open text.
fn added<'a>(y: &View<'a>) -> &'a [u8]
    requires ranges { InRange (shown y.now) }
    ensures bytes { result.now ≡ added_by (shown y.now) }
    ensures few { length result.now ≤ 184 }
{
    if y.start {
        &y.payload[1..y.pointed as usize]
    } else {
        y.payload
    }
}

pub(crate) fn append(text: &mut ArrayVec<u8, 4288>, bytes: &[u8])
    requires { length text.old.items + length bytes.now ≤ 4288 }
    ensures { text.new.items ≡ text.old.items ++ bytes.now }
{
    let _ = text.try_extend_from_slice(bytes);
}

#[tactic(auto, using(crate::proofs::Sets::texts), unfolding(crate::specs::Steps::right_of))]
fn close_whole(text: &mut ArrayVec<u8, 4288>, each: &mut SectionOut)
    requires empty { each.old ≡ [] }
    ensures text { text.new.items ≡ (if has_section text.old.items then [] else text.old.items) }
    ensures heard { each.new ≡ right_of (text.old.items ∷ []) }
    ensures short { length text.new.items ≤ 4097 }
    ensures room { length each.new ≤ 1 }
{
    let Some(len) = whole_len(text.as_slice()) else {
        return;
    };
    each.put_front(text.as_slice(), len);
    text.clear();
}

fn end_at_start(text: &mut ArrayVec<u8, 4288>, start: bool)
    ensures { text.new.items ≡ (if start then [] else text.old.items) }
{
    if start {
        text.clear();
    }
}

/// Takes what starts in the packet.
#[tactic(auto, using(crate::proofs::Sets::texts), unfolding(crate::specs::Steps::right_of))]
fn begin(text: &mut ArrayVec<u8, 4288>, y: &View<'_>, each: &mut SectionOut)
    requires short { length text.old.items ≤ 4097 }
    requires closed { y.now.start ≡ true → text.old.items ≡ [] }
    requires ranges { InRange (shown y.now) }
    requires room { length each.old ≤ 1 }
    ensures text { as_open text.new.items ≡ as_open text.old.items ++ unfinished (own_starts (shown y.now)) }
    ensures heard { each.new ≡ each.old ++ right_of (own_starts (shown y.now)) }
    ensures short { length text.new.items ≤ 4097 }
{
    if y.start {
        let at = put_whole(y.payload, y.pointed as usize, each);
        keep_rest(text, rest_from(y.payload, at));
    }
}
