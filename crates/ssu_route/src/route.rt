//! The whole way: from the sections heard to the group that the box wants now.

ghost use Rattle.std.specs.Prelude.{◌≡◌, ◌<◌, ◌&&◌, ◌∷◌, [], ◌++◌, List, IfSome, if◌then◌else◌, is_none, is_some, length, option_to_list, None, false};
ghost use Rattle.std.specs.Option.{option_map};
ghost use Rattle.ts_section.specs.Events.{Heard, is_among};
ghost use Rattle.section_kind.specs.Kinds.{kind_of};
ghost use Rattle.route_tables.specs.Next.{heard_on};
ghost use Rattle.route_tables.specs.Values.{Receiver};
ghost use Rattle.si_table.specs.Pids.{pat_pid, nit_pid, bat_pid, time_pid};
ghost use Rattle.route_tables.specs.Levels.{level_2, level_3, level_4, level_5};
ghost use Rattle.route_tables.specs.Standing.{needs_notice};
ghost use Rattle.ssu_route.specs.Choosing.{level_6, level_7};
ghost use Rattle.ssu_route.specs.Windows.{IsChoice, change_at, chosen_dii};
ghost use Rattle.ssu_route.specs.Route.{Stays};
ghost use Rattle.ssu_route.specs.Queries.{carousel_pid, count_and_total, has_none, listened, missing as missing_level, report as report_of};

use crate::accept::Terms;
use crate::change::Change;
use crate::choice::Choice;
use crate::kept::Kept;
use crate::report::Report;
use arrayvec::ArrayVec;
use box_file::BoxFile;
use route_tables::Tables;
use ssu_answer::Level;
use ssu_compat::{BoxId, SwId};
use ts_packet::Pid;
use ts_section::PidSet;

/// The way to an update, as far as the sections that were heard lead. It keeps no section.
#[derive(Drop)]
pub struct Route {
    tables: Tables,
    terms: Terms,
    kept: Kept,
}

impl Route {
    ghost use Rattle.ssu_route.specs.Route.{HasUsableDii, Stands};

    /// The way of a box that has heard nothing, for banks of so many bytes.
    pub fn new(me: &BoxFile, bank_len: u32) -> Route
        ensures stands { (box : Receiver) → box.file ≡ me.now → box.bank_len ≡ bank_len → Stands box [] result }
    {
        Route {
            tables: Tables::new(me),
            terms: Terms {
                id: BoxId {
                    oui: me.id.oui,
                    model: me.id.model,
                    version: me.id.version,
                    mac: None,
                    serial: None,
                },
                rule: me.rule,
                bank_len,
            },
            kept: Kept::new(),
        }
    }

    /// Takes the next section that was heard, on this PID, while this software runs. The running software is the same
    /// in all calls.
    pub fn hear(&mut self, pid: Pid, section: &[u8], running: SwId) -> Change
        ensures stands { (me : Receiver) (heard : List Heard) → Stands me heard self.old → me.running ≡ running
            → Stands me (heard_on pid section.now ∷ heard) self.new }
        ensures change { (me : Receiver) (heard : List Heard) → Stands me heard self.old → me.running ≡ running
            → result ≡ change_at me (heard_on pid section.now) heard }
        // A section of no kind changes nothing, on whatever PID.
        ensures no_kind { (me : Receiver) (heard : List Heard) → Stands me heard self.old → me.running ≡ running
            → kind_of section.now ≡ None → (result ≡ Change.Same) × Stays me (heard_on pid section.now) heard }
        // Nor does a section on a PID that is not listened to.
        ensures unlistened { (me : Receiver) (heard : List Heard) → Stands me heard self.old → me.running ≡ running
            → is_among pid (listened me heard) ≡ false → (result ≡ Change.Same) × Stays me (heard_on pid section.now) heard }
    {
        let before = self.tables.carousel();
        self.tables.hear(pid, section);
        let now = self.tables.carousel();
        self.kept
            .hear(&self.terms, running, &before, &now, pid, section)
    }

    /// The PIDs to listen to now: those of the PAT, the NIT, the BAT and the time, and those of the PMT, of the
    /// component and of the carousel, as far as they are known.
    #[tactic(auto, unfolding(crate::specs::Queries::listened, crate::specs::Queries::carousel_pid))]
    pub fn listens(&self) -> PidSet
        ensures { (me : Receiver) (heard : List Heard) → Stands me heard self.now → result.items ≡ listened me heard }
    {
        let mut pids = fixed_pids();
        add(&mut pids, self.program_pid());
        add(&mut pids, self.component_pid());
        add(&mut pids, self.carousel());
        pids
    }

    fn program_pid(&self) -> Option<Pid>
        ensures { (me : Receiver) (heard : List Heard) → Stands me heard self.now
            → result ≡ option_map (λ p. p.pid) (level_2 me heard) }
    {
        match self.tables.program() {
            Some((_, pid)) => Some(pid),
            None => None,
        }
    }

    fn component_pid(&self) -> Option<Pid>
        ensures { (me : Receiver) (heard : List Heard) → Stands me heard self.now
            → result ≡ option_map (λ c. c.pid) (level_3 me heard) }
    {
        match self.tables.component() {
            Some((pid, _)) => Some(pid),
            None => None,
        }
    }

    /// The group that the box wants, once its DII was heard.
    pub fn choice(&self) -> Option<&Choice>
        // It stands exactly where there are modules.
        ensures standing { (me : Receiver) (heard : List Heard) → Stands me heard self.now
            → is_some result ≡ is_some (level_7 me heard) }
        ensures chosen { (me : Receiver) (heard : List Heard) → Stands me heard self.now
            → IfSome result (λ choice. IsChoice me heard choice.now) }
        // Its DII can be used for the bank.
        ensures usable { (me : Receiver) (heard : List Heard) → Stands me heard self.now
            → IfSome result (λ choice. HasUsableDii me heard choice.now) }
    {
        match &self.kept.choice {
            Some(choice) => Some(choice),
            None => None,
        }
    }

    /// The PID of the carousel.
    #[tactic(auto, unfolding(crate::specs::Queries::carousel_pid))]
    pub fn carousel(&self) -> Option<Pid>
        ensures { (me : Receiver) (heard : List Heard) → Stands me heard self.now → result ≡ carousel_pid me heard }
    {
        match self.tables.carousel() {
            Some(carousel) => Some(carousel.pid),
            None => None,
        }
    }

    /// Where no choice stands, the first level that has no value.
    #[tactic(auto, unfolding(crate::specs::Queries::missing))]
    pub fn missing(&self) -> Level
        ensures { (me : Receiver) (heard : List Heard) → Stands me heard self.now → result ≡ missing_level me heard }
    {
        if self.tables.services_len() == 0 {
            return Level::Linkage;
        }
        if self.tables.program().is_none() {
            return Level::Program;
        }
        if self.tables.component().is_none() {
            return Level::Component;
        }
        if self.lacks_notice() {
            return Level::Notice;
        }
        self.missing_in_carousel()
    }

    /// The first of the levels without a value, where the tables lack none.
    fn missing_in_carousel(&self) -> Level
        ensures { (me : Receiver) (heard : List Heard) → Stands me heard self.now
            → result ≡ (if is_none (level_5 me heard) then Level.Window else (if has_none (level_6 me heard) then Level.Group else Level.Modules)) }
    {
        if self.tables.carousel().is_none() {
            return Level::Window;
        }
        if self.groups_len() == 0 {
            return Level::Group;
        }
        Level::Modules
    }

    fn lacks_notice(&self) -> bool
        ensures { (me : Receiver) (heard : List Heard) → Stands me heard self.now
            → result ≡ (needs_notice (level_3 me heard) && has_none (level_4 me heard)) }
    {
        self.tables.needs_notice() && self.tables.notices_len() == 0
    }

    fn groups_len(&self) -> u8
        ensures { (me : Receiver) (heard : List Heard) → Stands me heard self.now → result ≡ length (level_6 me heard) }
    {
        self.kept.groups.len() as u8
    }

    /// What is known at each level.
    #[tactic(auto, unfolding(crate::specs::Queries::report))]
    pub fn report(&self) -> Report
        ensures { (me : Receiver) (heard : List Heard) → Stands me heard self.now → result ≡ report_of me heard }
    {
        Report {
            services: self.tables.services_len(),
            program: self.tables.program(),
            component: self.tables.component(),
            notices: self.tables.notices_len(),
            carousel: self.carousel(),
            groups: self.groups_len(),
            modules: self.modules(),
        }
    }

    fn modules(&self) -> Option<(u16, u32)>
        ensures { (me : Receiver) (heard : List Heard) → Stands me heard self.now
            → result ≡ option_map count_and_total (chosen_dii me heard) }
    {
        match &self.kept.choice {
            Some(choice) => Some((choice.plan.modules.len() as u16, choice.plan.total)),
            None => None,
        }
    }
}

/// The PIDs of the PAT, the NIT, the BAT and the time.
fn fixed_pids() -> PidSet
    ensures { result.items ≡ pat_pid ∷ nit_pid ∷ bat_pid ∷ time_pid ∷ [] }
{
    let mut pids = ArrayVec::new();
    add(&mut pids, Pid::new(0x0000));
    add(&mut pids, Pid::new(0x0010));
    add(&mut pids, Pid::new(0x0011));
    add(&mut pids, Pid::new(0x0014));
    pids
}

fn add(pids: &mut PidSet, pid: Option<Pid>)
    requires { length pids.old.items < 16 }
    ensures { pids.new.items ≡ pids.old.items ++ option_to_list pid }
{
    if let Some(pid) = pid {
        pids.push(pid);
    }
}
