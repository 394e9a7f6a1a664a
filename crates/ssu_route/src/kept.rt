//! The last two levels: the groups that the box accepts, and the modules of the one that it wants.
//! ETSI EN 301 192, 8.1; ETSI TS 102 006, 6 to 9.

ghost use Rattle.std.specs.Prelude.{◌≡◌, ◌≤◌, ◌∷◌, ℕ, Bool, List, [], length, map, Some, None, true, false, IfSome};
ghost use Rattle.std.specs.Option.{option_map};
ghost use Rattle.ts_section.specs.Events.{Heard};
ghost use Rattle.dsmcc_msg.specs.Control.{dii, dsi};
ghost use Rattle.route_tables.specs.Values.{Receiver, same_carousel, same_number, same_option};
ghost use Rattle.route_tables.specs.Levels.{level_5};
ghost use Rattle.route_tables.specs.Standing.{carousel_view};
ghost use Rattle.route_tables.specs.Next.{heard_on};
ghost use Rattle.ssu_route.specs.Kept.{afresh, offers_of, seen};
ghost use Rattle.ssu_route.specs.Offers.{Offer, dii_of, same_offers};
ghost use Rattle.ssu_route.specs.Windows.{change_of};

use crate::accept::{Terms, groups_in};
use crate::change::Change;
use crate::choice::Choice;
use crate::found::{FoundGroups, are_same, is_wanted, lists, mark, software_of};
use arrayvec::ArrayVec;
use dsmcc_msg::Dii;
use route_tables::Carousel;
use ssu_compat::SwId;
use ssu_group::GroupPlan;
use ts_packet::Pid;

/// table_id of the control messages DSI and DII
const CONTROL_TABLE: u8 = 0x3B;

/// What is kept of the last two levels.
#[derive(Drop)]
pub(crate) struct Kept {
    /// The groups that the box accepts.
    pub(crate) groups: FoundGroups,
    /// The group that the box wants, once its DII was heard.
    pub(crate) choice: Option<Choice>,
}

impl Kept {
    ghost use Rattle.ssu_route.specs.Route.{AreTermsOf, KeptHears, KeptStands, offers_after, Chooses, EndsLapsed};
    ghost use Rattle.ssu_route.specs.Route.{Restarts, Takes, WherePlanned, held, is_first, is_held};
    ghost use Rattle.ssu_route.specs.Route.{is_lapsed as lapsed};

    /// No group.
    pub(crate) fn new() -> Kept
        ensures groups { result.groups.items ≡ [] }
        ensures choice { result.choice ≡ None }
    {
        Kept {
            groups: ArrayVec::new(),
            choice: None,
        }
    }

    /// Is there a choice, from a DII with this message?
    fn holds(&self, message: &[u8]) -> bool
        ensures { result ≡ is_held message.now self.now }
    {
        match &self.choice {
            Some(choice) => choice.message.as_slice() == message,
            None => false,
        }
    }

    /// Is there a choice of a group that is no longer the wanted one?
    fn is_lapsed(&self) -> bool
        ensures { result ≡ lapsed self.now }
    {
        match &self.choice {
            Some(choice) => !is_wanted(self.groups.as_slice(), choice.group),
            None => false,
        }
    }

    /// Ends the choice, if there is one.
    fn end_choice(&mut self) -> Change
        ensures groups { self.new.groups ≡ self.old.groups }
        ensures choice { self.new.choice ≡ None }
        ensures change { result ≡ change_of (held self.old) None }
    {
        if self.choice.is_none() {
            return Change::Same;
        }
        self.choice = None;
        Change::Lost
    }

    /// Ends a choice of a group that is no longer the wanted one.
    fn end_lapsed(&mut self) -> Change
        ensures { EndsLapsed self.old self.new result }
    {
        if !self.is_lapsed() {
            return Change::Same;
        }
        self.choice = None;
        Change::Lost
    }

    /// Chooses the group of the DII.
    #[inline]
    fn choose(&mut self, dii: &Dii<'_>, plan: GroupPlan) -> Change
        requires { length dii.now.message ≤ 4084 }
        ensures { Chooses dii.now plan self.old self.new result }
    {
        let group = group_of(dii);
        let software = software_of(self.groups.as_slice(), group);
        self.choice = Some(Choice {
            group,
            software,
            plan,
            message: bytes_of(dii.message()),
        });
        Change::Chosen
    }

    /// Chooses the group of the DII, if it is the wanted one.
    #[inline]
    fn choose_if_wanted(&mut self, dii: &Dii<'_>, plan: GroupPlan) -> Change
        requires { length dii.now.message ≤ 4084 }
        ensures first { is_first dii.now.transaction self.old.groups.items ≡ true → Chooses dii.now plan self.old self.new result }
        ensures other { is_first dii.now.transaction self.old.groups.items ≡ false → EndsLapsed self.old self.new result }
    {
        if is_wanted(self.groups.as_slice(), group_of(dii)) {
            self.choose(dii, plan)
        } else {
            self.end_lapsed()
        }
    }

    /// Takes up what a DII says of its group, which is one of the groups.
    fn plan_dii(&mut self, bank_len: u32, dii: &Dii<'_>) -> Change
        requires read { dii_of dii.now.message ≡ Some dii.now }
        requires short { length dii.now.message ≤ 4084 }
        ensures takes { WherePlanned bank_len self.old → is_held dii.now.message self.old ≡ false
            → Takes bank_len (Some dii.now) self.old self.new result }
    {
        match GroupPlan::of(dii, bank_len) {
            Err(_) => {
                mark(&mut self.groups, group_of(dii), false);
                self.end_lapsed()
            }
            Ok(plan) => {
                mark(&mut self.groups, group_of(dii), true);
                self.choose_if_wanted(dii, plan)
            }
        }
    }

    /// Takes up what a DII says of its group. One that is held already says nothing new, and is not planned again.
    fn take_dii(&mut self, bank_len: u32, dii: &Dii<'_>) -> Change
        requires read { dii_of dii.now.message ≡ Some dii.now }
        requires short { length dii.now.message ≤ 4084 }
        ensures takes { (usable : ℕ → Bool) (offers : List Offer) → self.old.groups.items ≡ map (seen usable) offers
            → WherePlanned bank_len self.old → Takes bank_len (Some dii.now) self.old self.new result }
    {
        if self.holds(dii.message()) {
            return Change::Same;
        }
        if !lists(self.groups.as_slice(), group_of(dii)) {
            return Change::Same;
        }
        self.plan_dii(bank_len, dii)
    }

    /// What a section says of the modules of a group, if it is a DII.
    fn hear_dii(&mut self, bank_len: u32, section: &[u8]) -> Change
        ensures takes { (usable : ℕ → Bool) (offers : List Offer) → self.old.groups.items ≡ map (seen usable) offers
            → WherePlanned bank_len self.old → Takes bank_len (dii.of section.now) self.old self.new result }
    {
        match dii_in(section) {
            Some(dii) => self.take_dii(bank_len, &dii),
            None => Change::Same,
        }
    }

    /// Takes other groups in place of those that were found.
    fn restart(&mut self, groups: FoundGroups) -> Change
        ensures groups { self.new.groups.items ≡ groups.items }
        ensures choice { self.new.choice ≡ None }
        ensures change { result ≡ change_of (held self.old) None }
    {
        self.groups = groups;
        self.end_choice()
    }

    /// Takes up the groups of a DSI. Where they are those that were found, nothing changes by it.
    fn take_groups(&mut self, bank_len: u32, groups: FoundGroups, section: &[u8]) -> Change
        ensures stays { (usable : ℕ → Bool) (offers : List Offer) → self.old.groups.items ≡ map (seen usable) offers
            → WherePlanned bank_len self.old → same_offers (offers_of groups.items) (offers_of self.old.groups.items) ≡ true
            → Takes bank_len (dii.of section.now) self.old self.new result }
        ensures fresh { (offers : List Offer) → groups.items ≡ map afresh offers
            → same_offers (offers_of groups.items) (offers_of self.old.groups.items) ≡ false
            → Restarts offers self.old self.new result }
    {
        if are_same(groups.as_slice(), self.groups.as_slice()) {
            self.hear_dii(bank_len, section)
        } else {
            self.restart(groups)
        }
    }

    /// What a control message of the carousel says.
    fn hear_control(
        &mut self,
        terms: &Terms,
        running: SwId,
        subgroup: Option<u64>,
        section: &[u8],
    ) -> Change
        ensures stays { (usable : ℕ → Bool) (offers : List Offer) → self.old.groups.items ≡ map (seen usable) offers
            → WherePlanned terms.now.bank_len self.old
            → same_offers (offers_after terms.now running subgroup section.now offers) offers ≡ true
            → Takes terms.now.bank_len (dii.of section.now) self.old self.new result }
        ensures fresh { (usable : ℕ → Bool) (offers : List Offer) → self.old.groups.items ≡ map (seen usable) offers
            → same_offers (offers_after terms.now running subgroup section.now offers) offers ≡ false
            → Restarts (offers_after terms.now running subgroup section.now offers) self.old self.new result }
    {
        match groups_in(terms, running, subgroup, section) {
            Some(groups) => self.take_groups(terms.bank_len, groups, section),
            None => self.hear_dii(terms.bank_len, section),
        }
    }

    /// What a section of the carousel says. Most are blocks, which say nothing of the groups.
    fn hear_section(
        &mut self,
        terms: &Terms,
        running: SwId,
        subgroup: Option<u64>,
        section: &[u8],
    ) -> Change
        ensures stays { (usable : ℕ → Bool) (offers : List Offer) → self.old.groups.items ≡ map (seen usable) offers
            → WherePlanned terms.now.bank_len self.old
            → same_offers (offers_after terms.now running subgroup section.now offers) offers ≡ true
            → Takes terms.now.bank_len (dii.of section.now) self.old self.new result }
        ensures fresh { (usable : ℕ → Bool) (offers : List Offer) → self.old.groups.items ≡ map (seen usable) offers
            → same_offers (offers_after terms.now running subgroup section.now offers) offers ≡ false
            → Restarts (offers_after terms.now running subgroup section.now offers) self.old self.new result }
    {
        if !is_control(section) {
            return Change::Same;
        }
        self.hear_control(terms, running, subgroup, section)
    }

    /// Takes up a section that was heard on this PID, where the carousel was the one before it and is the other now.
    pub(crate) fn hear(
        &mut self,
        terms: &Terms,
        running: SwId,
        before: &Option<Carousel>,
        now: &Option<Carousel>,
        pid: Pid,
        section: &[u8],
    ) -> Change
        ensures heard { (me : Receiver) (heard : List Heard) → AreTermsOf me terms.now → me.running ≡ running
            → option_map carousel_view before.now ≡ level_5 me heard
            → option_map carousel_view now.now ≡ level_5 me (heard_on pid section.now ∷ heard)
            → KeptStands me heard self.old → KeptHears me (heard_on pid section.now) heard self.new result }
    {
        if !is_same_carousel(now, before) {
            return self.restart(ArrayVec::new());
        }
        match now {
            Some(carousel) => {
                if pid == carousel.pid {
                    self.hear_section(terms, running, carousel.subgroup, section)
                } else {
                    Change::Same
                }
            }
            None => Change::Same,
        }
    }
}

fn is_same_subgroup(one: Option<u64>, other: Option<u64>) -> bool
    ensures { result ≡ same_option same_number one other }
{
    match one {
        None => match other {
            None => true,
            Some(_) => false,
        },
        Some(one) => match other {
            None => false,
            Some(other) => one == other,
        },
    }
}

fn is_same_carousel(one: &Option<Carousel>, other: &Option<Carousel>) -> bool
    ensures { result ≡ same_carousel (option_map carousel_view one.now) (option_map carousel_view other.now) }
{
    match one {
        None => match other {
            None => true,
            Some(_) => false,
        },
        Some(one) => match other {
            None => false,
            Some(other) => one.pid == other.pid && is_same_subgroup(one.subgroup, other.subgroup),
        },
    }
}

fn bytes_of(message: &[u8]) -> ArrayVec<u8, 4084>
    requires { length message.now ≤ 4084 }
    ensures { result.items ≡ message.now }
{
    let mut bytes = ArrayVec::new();
    let _ = bytes.try_extend_from_slice(message);
    bytes
}

/// Is it a section of control messages, by its table_id?
fn is_control(section: &[u8]) -> bool
    ensures dsi { result ≡ false → dsi.of section.now ≡ None }
    ensures dii { result ≡ false → dii.of section.now ≡ None }
{
    match section {
        [table, ..] => *table == CONTROL_TABLE,
        [] => false,
    }
}

/// The id of the group to which the DII belongs.
fn group_of(dii: &Dii<'_>) -> u32
    ensures { result ≡ dii.now.transaction }
{
    dii.transaction
}

/// The DII that the section is.
fn dii_in(section: &[u8]) -> Option<Dii<'_>>
    ensures exact { result ≡ dii.of section.now }
    ensures read { IfSome result (λ d. dii_of d.message ≡ Some d) }
    ensures short { IfSome result (λ d. length d.message ≤ 4084) }
{
    Dii::read(section)
}
