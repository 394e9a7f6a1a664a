//! A route on the heap.

ghost use Rattle.std.specs.Prelude.{◌≡◌, ◌∷◌, [], List, IfOk, IfSome, is_some, None, false};
ghost use Rattle.ts_section.specs.Events.{Heard, is_among};
ghost use Rattle.section_kind.specs.Kinds.{kind_of};
ghost use Rattle.route_tables.specs.Next.{heard_on};
ghost use Rattle.route_tables.specs.Values.{Receiver};
ghost use Rattle.ssu_route.specs.Choosing.{level_7};
ghost use Rattle.ssu_route.specs.Windows.{IsChoice, change_at};
ghost use Rattle.ssu_route.specs.Route.{Stays};
ghost use Rattle.ssu_route.specs.Queries.{carousel_pid, listened, missing as missing_level, report as report_of};

use crate::change::Change;
use crate::choice::Choice;
use crate::report::Report;
use crate::route::Route;
use box_file::BoxFile;
use ssu_answer::Level;
use ssu_compat::SwId;
use ssu_io::NoMemory;
use std::alloc::Global;
use std::marker::Model;
use ts_packet::Pid;
use ts_section::PidSet;

/// A route on the heap. It has the plan of up to 512 modules and the message that it comes from, some 30 KiB, and each time that it
/// is moved it would stand on the stack once more.
///
/// A contract sees the route.
#[derive(Drop)]
pub struct HeapRoute {
    route: Box<Route>,
}

impl Model for HeapRoute {
    ghost use Rattle.ssu_route.specs.declared.route.Route.{Route};

    ghost Value = { Route };

    ghost view = { λ h. h.route.value };
}

impl HeapRoute {
    ghost use Rattle.ssu_route.specs.Route.{HasUsableDii, Stands};

    /// The way of a box that has heard nothing, for banks of so many bytes. All its memory is taken here. `NoMemory` is the one refusal.
    #[inline(never)]
    pub fn new(alloc: Global, me: &BoxFile, bank_len: u32) -> Result<HeapRoute, NoMemory>
        ensures stands { IfOk result (λ route. (box : Receiver) → box.file ≡ me.now → box.bank_len ≡ bank_len → Stands box [] route) }
    {
        let route = Box::new(alloc, Route::new(me, bank_len))?;
        Ok(HeapRoute { route })
    }

    /// Takes the next section that was heard, on this PID, while this software runs. The running software is the same
    /// in all calls.
    pub fn hear(&mut self, pid: Pid, section: &[u8], running: SwId) -> Change
        ensures stands { (me : Receiver) (heard : List Heard) → Stands me heard self.old → me.running ≡ running
            → Stands me (heard_on pid section.now ∷ heard) self.new }
        ensures change { (me : Receiver) (heard : List Heard) → Stands me heard self.old → me.running ≡ running
            → result ≡ change_at me (heard_on pid section.now) heard }
        // A section of no kind changes nothing, on whatever PID.
        ensures no_kind { (me : Receiver) (heard : List Heard) → Stands me heard self.old → me.running ≡ running
            → kind_of section.now ≡ None → (result ≡ Change.Same) × Stays me (heard_on pid section.now) heard }
        // Nor does a section on a PID that is not listened to.
        ensures unlistened { (me : Receiver) (heard : List Heard) → Stands me heard self.old → me.running ≡ running
            → is_among pid (listened me heard) ≡ false → (result ≡ Change.Same) × Stays me (heard_on pid section.now) heard }
    {
        self.route.hear(pid, section, running)
    }

    /// The PIDs to listen to now.
    pub fn listens(&self) -> PidSet
        ensures { (me : Receiver) (heard : List Heard) → Stands me heard self.now → result.items ≡ listened me heard }
    {
        self.route.listens()
    }

    /// The group that the box wants, once its DII was heard.
    pub fn choice(&self) -> Option<&Choice>
        ensures standing { (me : Receiver) (heard : List Heard) → Stands me heard self.now
            → is_some result ≡ is_some (level_7 me heard) }
        ensures chosen { (me : Receiver) (heard : List Heard) → Stands me heard self.now
            → IfSome result (λ choice. IsChoice me heard choice.now) }
        ensures usable { (me : Receiver) (heard : List Heard) → Stands me heard self.now
            → IfSome result (λ choice. HasUsableDii me heard choice.now) }
    {
        self.route.choice()
    }

    /// The PID of the carousel.
    pub fn carousel(&self) -> Option<Pid>
        ensures { (me : Receiver) (heard : List Heard) → Stands me heard self.now → result ≡ carousel_pid me heard }
    {
        self.route.carousel()
    }

    /// Where no choice stands, the first level that has no value.
    pub fn missing(&self) -> Level
        ensures { (me : Receiver) (heard : List Heard) → Stands me heard self.now → result ≡ missing_level me heard }
    {
        self.route.missing()
    }

    /// What is known at each level.
    pub fn report(&self) -> Report
        ensures { (me : Receiver) (heard : List Heard) → Stands me heard self.now → result ≡ report_of me heard }
    {
        self.route.report()
    }
}
