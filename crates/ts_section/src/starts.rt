//! The sections that start in a packet: ISO/IEC 13818-1, 2.4.4.

ghost use Rattle.std.specs.Prelude.{◌≡◌, ◌+◌, ◌*◌, ◌<◌, ◌≤◌, [], ◌∷◌, ◌++◌, length, drop, true, false, ◌&&◌, MatchOption, IfSome, IfNone};
ghost use Rattle.section_form.specs.Section.{section_end};
ghost use Rattle.ts_section.specs.Sections.{has_section, starts_behind};
ghost use Rattle.ts_section.specs.Steps.{right_of, unfinished, as_open, as_start, is_start as start_test};

use crate::section_out::SectionOut;
use crate::step::append;
use arrayvec::ArrayVec;

/// The length of the whole section at the front of a text, where there is one.
#[tactic(auto, unfolding(crate::specs::Sections::has_section))]
pub(crate) fn whole_len(text: &[u8]) -> Option<usize>
    ensures whole { MatchOption result (has_section text.now ≡ false) (λ n. has_section text.now ≡ true) }
    ensures len { IfSome result (λ n. n ≡ section_end text.now) }
    ensures fits { IfSome result (λ n. n ≤ length text.now) }
    ensures short { IfNone result (length text.now ≤ 4097) }
{
    if text.len() < 3 {
        return None;
    }
    let len = 3 + (text[1] as usize % 16) * 256 + text[2] as usize;
    if len <= text.len() { Some(len) } else { None }
}

/// Puts the right ones of the sections that lie wholly in the payload into `each`, and answers the place behind them.
pub(crate) fn put_whole(payload: &[u8], pointed: usize, each: &mut SectionOut) -> usize
    requires few { length payload.now ≤ 184 }
    requires pointer { 1 ≤ pointed }
    requires inside { pointed < length payload.now }
    requires room { length each.old ≤ 1 }
    ensures within { result ≤ length payload.now }
    ensures heard { each.new ≡ each.old ++ right_of (starts_behind payload.now pointed) }
    ensures rest { unfinished (starts_behind payload.now pointed) ≡ as_start (drop result payload.now) }
{
    let mut at = pointed;
    while let Some(len) = whole_start(rest_from(payload, at)) {
        each.put_front(rest_from(payload, at), len);
        at += len;
    }
    at
}

/// What is left of a payload from this place on.
pub(crate) fn rest_from(payload: &[u8], at: usize) -> &[u8]
    requires { at ≤ length payload.now }
    ensures { result.now ≡ drop at payload.now }
{
    &payload[at..]
}

/// The length of the whole section that starts at the front of the rest, where one does.
fn whole_start(rest: &[u8]) -> Option<usize>
    ensures whole { MatchOption result ((start_test rest.now && has_section rest.now) ≡ false)
        (λ n. (start_test rest.now ≡ true) × (has_section rest.now ≡ true)) }
    ensures len { IfSome result (λ n. n ≡ section_end rest.now) }
    ensures fits { IfSome result (λ n. n ≤ length rest.now) }
{
    if is_start(rest) {
        whole_len(rest)
    } else {
        None
    }
}

/// Whether a section starts here: there is a byte, and it is not stuffing.
fn is_start(rest: &[u8]) -> bool
    ensures { result ≡ start_test rest.now }
{
    !rest.is_empty() && rest[0] != 0xFF
}

/// Keeps the text of a section that starts here and is not whole in the packet.
pub(crate) fn keep_rest(text: &mut ArrayVec<u8, 4288>, rest: &[u8])
    requires closed { text.old.items ≡ [] }
    requires few { length rest.now ≤ 184 }
    ensures text { as_open text.new.items ≡ as_start rest.now }
    ensures short { length text.new.items ≤ 4097 }
{
    if is_start(rest) {
        append(text, rest);
    }
}
