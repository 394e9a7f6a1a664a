//! What is kept of one PID: ISO/IEC 13818-1, 2.4.3.3 and 2.4.4.

ghost use Rattle.std.specs.Prelude.{◌≡◌, ◌≤◌, [], length, Some};
ghost use Rattle.ts_packet.specs.Packet.{usable, shown};

use crate::section_out::SectionOut;
use crate::step::{Step, advance, step_of};
use arrayvec::ArrayVec;
use ts_packet::{Packet, View};

/// The last packet of a span, and the text of the section that began and is not whole yet.
#[derive(Drop)]
pub(crate) struct Stream {
    /// One that is not usable where no packet came yet.
    pub(crate) last: [u8; 188],
    /// Empty where no section is open.
    pub(crate) text: ArrayVec<u8, 4288>,
    ghost short: { length text.items ≤ 4097 },
}

impl Stream {
    ghost use Rattle.ts_section.specs.Steps.{step_to, open_after, right_after, as_open};
    ghost use Rattle.ts_packet.specs.Packet.{InRange};
    ghost use Rattle.ts_section.specs.Hearing.{IsFresh};

    /// A span without packets.
    pub(crate) fn new() -> Stream
        ensures { IsFresh result }
    {
        Stream {
            last: [0; 188],
            text: ArrayVec::new(),
        }
    }

    /// Begins a new span.
    pub(crate) fn reset(&mut self)
        ensures { IsFresh self.new }
    {
        self.last[0] = 0;
        self.text.clear();
    }

    /// Takes the next usable packet of the span, and puts the right sections that it completes into `each`.
    pub(crate) fn take(&mut self, packet: &Packet, y: &View<'_>, each: &mut SectionOut)
        requires carried { usable packet.now ≡ Some (shown y.now) }
        requires ranges { InRange (shown y.now) }
        requires empty { each.old ≡ [] }
        ensures last { usable self.new.last ≡ Some (shown y.now) }
        ensures text { as_open self.new.text.items
            ≡ open_after (step_to (usable self.old.last) (shown y.now)) (as_open self.old.text.items) (shown y.now) }
        ensures heard { each.new
            ≡ right_after (step_to (usable self.old.last) (shown y.now)) (as_open self.old.text.items) (shown y.now) }
    {
        let step = step_of(&self.last, y);
        advance(step, &mut self.text, y, each);
        self.last = *packet;
    }
}
