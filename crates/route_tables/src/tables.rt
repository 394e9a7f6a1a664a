//! What is kept of the tables that were heard.

ghost use Rattle.std.specs.Prelude.{◌≡◌, ◌==◌, ◌||◌, false, List, [], ◌∷◌, length, map, option_to_list};
ghost use Rattle.std.specs.Option.{option_map};
ghost use Rattle.ts_section.specs.Events.{Heard};
ghost use Rattle.route_tables.specs.Values.{Receiver};
ghost use Rattle.si_table.specs.Pids.{pat_pid, nit_pid, bat_pid, time_pid};
ghost use Rattle.route_tables.specs.Levels.{is_number, level_1, level_2, level_3, level_4, level_5};
ghost use Rattle.route_tables.specs.Standing.{IsElsewhere, TablesStand, carousel_view, needs_notice as is_needed, service_view};
ghost use Rattle.route_tables.specs.Next.{heard_on};

use crate::carousel::{Carousel, carousel_now};
use crate::clock::{self, TIME_PID};
use crate::component::{self, Component};
use crate::linkage::{self, BAT_PID, NIT_PID, Service, Services};
use crate::notice::{self, Notice};
use crate::program::{self, PAT_PID, Program};
use arrayvec::ArrayVec;
use box_file::BoxFile;
use si_desc::ServiceRef;
use ssu_compat::BoxId;
use ts_packet::Pid;

/// What a set-top box knows of the way to an update: services, program, component, notice, and the carousel.
#[derive(Drop)]
pub struct Tables {
    id: BoxId,
    manual: bool,
    service: Option<ServiceRef>,
    services: Services,
    program: Option<Program>,
    component: Option<Component>,
    notice: Option<Notice>,
    time: Option<u64>,
    carousel: Option<Carousel>,
}

impl Tables {
    /// The tables of a box that has heard nothing.
    pub fn new(me: &BoxFile) -> Tables
        ensures stands { (box : Receiver) → box.file ≡ me.now → TablesStand box [] result }
    {
        Tables {
            id: copy_of(&me.id),
            manual: me.manual,
            service: me.service,
            services: configured(&me.service),
            program: None,
            component: None,
            notice: None,
            time: None,
            carousel: None,
        }
    }

    /// Takes the next section that was heard, on this PID.
    pub fn hear(&mut self, pid: Pid, section: &[u8])
        ensures stands { (me : Receiver) → (heard : List Heard) → TablesStand me heard self.old
            → TablesStand me (heard_on pid section.now ∷ heard) self.new }
    {
        if self.looks_at(pid) {
            self.take_up(pid, section);
        }
    }

    /// Whether a table is looked for on this PID.
    fn looks_at(&self, pid: Pid) -> bool
        ensures { (me : Receiver) → (heard : List Heard) → TablesStand me heard self.now
            → result ≡ false → IsElsewhere me heard pid }
    {
        has_fixed_table(pid) || self.has_program_on(pid) || self.has_component_on(pid)
    }

    fn has_program_on(&self, pid: Pid) -> bool
        ensures { result ≡ is_number pid (option_map (λ p. p.pid) self.now.program) }
    {
        match &self.program {
            Some(program) => program.pid.get() == pid.get(),
            None => false,
        }
    }

    fn has_component_on(&self, pid: Pid) -> bool
        ensures { result ≡ is_number pid (option_map (λ c. c.pid) self.now.component) }
    {
        match &self.component {
            Some(component) => component.pid.get() == pid.get(),
            None => false,
        }
    }

    /// Takes up what the section says, level by level.
    fn take_up(&mut self, pid: Pid, section: &[u8])
        ensures stands { (me : Receiver) → (heard : List Heard) → TablesStand me heard self.old
            → TablesStand me (heard_on pid section.now ∷ heard) self.new }
    {
        let oui = self.id.oui;
        let is_same = linkage::hear(&mut self.services, &self.service, oui, pid, section);
        let is_same = program::hear(
            &mut self.program,
            is_same,
            self.services.as_slice(),
            pid,
            section,
        );
        let is_same = component::hear(
            &mut self.component,
            is_same,
            oui,
            &self.program,
            pid,
            section,
        );
        notice::hear(
            &mut self.notice,
            is_same,
            &self.id,
            &self.component,
            pid,
            section,
        );
        clock::hear(&mut self.time, pid, section);
        self.carousel = carousel_now(self.manual, self.time, &self.component, &self.notice);
    }

    /// The number of services that carry updates, at most 16.
    pub fn services_len(&self) -> u8
        ensures { (me : Receiver) → (heard : List Heard) → TablesStand me heard self.now → result ≡ length (level_1 me heard) }
    {
        self.services.len() as u8
    }

    /// The number of the service that was found, and the PID of its PMT. `None` comes exactly where no PAT has listed
    /// a service that carries updates since those services last changed.
    pub fn program(&self) -> Option<(u16, Pid)>
        ensures { (me : Receiver) → (heard : List Heard) → TablesStand me heard self.now
            → result ≡ option_map (λ p. (p.service.service, p.pid)) (level_2 me heard) }
    {
        let Some(program) = &self.program else {
            return None;
        };
        Some((program.service.service, program.pid))
    }

    /// The PID of the stream that tells of an update, and its update type, 1 or 2. `None` comes exactly where no PMT
    /// of the program was heard since the program last changed, or the last one has no such stream.
    pub fn component(&self) -> Option<(Pid, u8)>
        ensures { (me : Receiver) → (heard : List Heard) → TablesStand me heard self.now
            → result ≡ option_map (λ c. (c.pid, c.update_type)) (level_3 me heard) }
    {
        let Some(component) = &self.component else {
            return None;
        };
        Some((component.pid, component.update_type))
    }

    /// Whether the component has a notification table.
    pub fn needs_notice(&self) -> bool
        ensures { (me : Receiver) → (heard : List Heard) → TablesStand me heard self.now → result ≡ is_needed (level_3 me heard) }
    {
        match &self.component {
            Some(component) => component.has_notice(),
            None => false,
        }
    }

    /// The number of entries for the box, at most 32.
    #[tactic(auto, unfolding(crate::specs::Levels::level_4))]
    pub fn notices_len(&self) -> u8
        ensures { (me : Receiver) → (heard : List Heard) → TablesStand me heard self.now → result ≡ length (level_4 me heard) }
    {
        match &self.notice {
            Some(notice) => notice.entries.len() as u8,
            None => 0,
        }
    }

    /// The carousel of an update that the box may take now. `None` comes exactly where there is no component, or it
    /// has a notification table and no entry for the box is open now and leads to a carousel.
    pub fn carousel(&self) -> Option<Carousel>
        ensures { (me : Receiver) → (heard : List Heard) → TablesStand me heard self.now
            → option_map carousel_view result ≡ level_5 me heard }
    {
        self.carousel
    }
}

/// Whether the PID is that of the PAT, the NIT, the BAT or the time.
fn has_fixed_table(pid: Pid) -> bool
    ensures { result ≡ (pid == pat_pid || pid == nit_pid || pid == bat_pid || pid == time_pid) }
{
    let number = pid.get();
    number == PAT_PID || number == NIT_PID || number == BAT_PID || number == TIME_PID
}

/// The configured service alone, where there is one.
fn configured(service: &Option<ServiceRef>) -> Services
    ensures { map service_view result.items ≡ option_to_list service.now }
{
    let mut services = ArrayVec::new();
    if let Some(service) = service {
        services.push(Service::of(*service));
    }
    services
}

/// The same box once more.
fn copy_of(id: &BoxId) -> BoxId
    ensures { result ≡ id.now }
{
    BoxId {
        oui: id.oui,
        model: id.model,
        version: id.version,
        mac: id.mac,
        serial: serial_of(id),
    }
}

fn serial_of(id: &BoxId) -> Option<ArrayVec<u8, 32>>
    ensures { result ≡ id.now.serial }
{
    let Some(serial) = &id.serial else {
        return None;
    };
    ArrayVec::try_from(serial.as_slice()).ok()
}
