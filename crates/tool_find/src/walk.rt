//! A box that hears the packets of an input.
ghost use Rattle.std.specs.Prelude.{◌≡◌, ℕ, List, [], ◌∷◌, IfOk};
ghost use Rattle.ts_section.specs.Events.{Heard, Feed, heard};
ghost use Rattle.route_tables.specs.Values.{Receiver};
ghost use Rattle.ssu_route.specs.Queries.{followed, heard_by, report as report_of};
ghost use Rattle.ssu_route.specs.Route.{Stands};
ghost use Rattle.ssu_route.specs.Queries.{after_all};
ghost use Rattle.tool_find.specs.Lines.{receiver_of};

use box_file::BoxFile;
use ssu_answer::BANK_LEN;
use ssu_compat::SwId;
use ssu_io::NoMemory;
use ssu_route::{HeapRoute, Report};
use std::alloc::Global;
use ts_packet::{Packet, Pid, pid_of};
use ts_section::{Hearer, SectionOut};

/// A box on the way to an update.
#[derive(Drop)]
pub(crate) struct Walk {
    pub(crate) hearer: Hearer,
    pub(crate) each: SectionOut,
    pub(crate) route: HeapRoute,
    pub(crate) running: SwId,
}

impl Walk {
    ghost use Rattle.tool_find.specs.Lines.{Walks};

    /// The box of the file, before the first packet. All its memory is taken here.
    pub(crate) fn new(alloc: Global, file: &BoxFile) -> Result<Walk, NoMemory>
        ensures stands { IfOk result (λ walk. Walks (receiver_of file.now) walk []) }
    {
        let mut hearer = Hearer::new(alloc)?;
        let each = SectionOut::new(alloc)?;
        let route = HeapRoute::new(alloc, file, BANK_LEN)?;
        let pids = route.listens();
        hearer.listen(&pids);
        Ok(Walk {
            hearer,
            each,
            route,
            running: file.software,
        })
    }

    /// Takes the next packet. The sections that become complete in it stand in `each`.
    pub(crate) fn take(&mut self, packet: &Packet)
        ensures stands { (me : Receiver) (ps : List (List ℕ)) → Walks me self.old ps → Walks me self.new (packet.now ∷ ps) }
        ensures heard { (me : Receiver) (ps : List (List ℕ)) → Walks me self.old ps → self.new.each ≡ heard (Feed packet.now ∷ followed me ps) }
    {
        self.hearer.feed(packet, &mut self.each);
        hear_each(&mut self.route, &self.each, pid_of(packet), self.running);
        let pids = self.route.listens();
        self.hearer.listen(&pids);
    }

    /// What is known at each level.
    pub(crate) fn report(&self) -> Report
        ensures { (me : Receiver) (ps : List (List ℕ)) → Walks me self.now ps → result ≡ report_of me (heard_by me ps) }
    {
        self.route.report()
    }
}

/// The route hears the sections in their order.
fn hear_each(route: &mut HeapRoute, each: &SectionOut, pid: Pid, running: SwId)
    ensures { (me : Receiver) (heard : List Heard) → me.running ≡ running → Stands me heard route.old
        → Stands me (after_all pid each.now heard) route.new }
{
    for k in 0..each.len() {
        let _change = route.hear(pid, each.get(k), running);
    }
}
