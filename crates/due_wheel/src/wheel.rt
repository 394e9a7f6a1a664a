//! The wheel: a bucket for each slot, in which the items lie whose due number is the slot's, modulo the number of slots.

ghost use Rattle.std.specs.Prelude.{◌≡◌, ℕ, ◌+◌, ◌-◌, ◌%◌, ◌<◌, ◌≤◌, ◌&&◌, ◌==◌, if◌then◌else◌, min};
ghost use Rattle.std.specs.Prelude.{length, replicate, slice_set, None, Some, IfOk, IfNone, IfSome, is_some, unwrap_or};
ghost use Rattle.due_wheel.specs.Due.{Puts, Takes, due_of, IsEmpty, IsLeast, is_less, count_behind};
ghost use Rattle.due_wheel.specs.Lists.{items_of};
ghost use Rattle.due_wheel.specs.Ordered.{AllLinked, IsPlaceOf};
ghost use Rattle.due_wheel.specs.Fronts.{IsFront, HasNone, is_due_at, lesser_of};

use crate::{Links, Steps};
use ssu_io::NoMemory;
use std::alloc::Global;
use std::marker::{Brand, Model};
use std::sync::ledger::{Blank, Ledger};

/// Items with due numbers, of which the least is found through buckets. Items are numbers from 0.
///
/// A contract sees at the index of each item its due number, or None where it is not in; the number of buckets; and the
/// floor, which no due number is below.
#[derive(Drop)]
pub struct Wheel {
    /// The items of each bucket, in ascending order of due number and item.
    links: Links,
    slots: u32,
    /// How many items are in.
    count: u32,
    floor: u64,
}

impl Model for Wheel {
    ghost use Rattle.due_wheel.specs.Due.{DueMap};
    ghost use Rattle.due_wheel.specs.Ordered.{AreBuckets};

    ghost Value = { DueMap };

    ghost view = { λ w. record { dues = w.links.dues; slots = w.slots; floor = w.floor } };

    ghost invariant = { λ w. AreBuckets w.links w.slots w.count w.floor };
}

impl Wheel {
    /// A wheel with so many buckets, and room for the items below `items`. None is in.
    ///
    /// # Errors
    ///
    /// `NoMemory` where memory ran out.
    pub fn new(alloc: Global, items: u32, slots: u32) -> Result<Wheel, NoMemory>
        requires { 1 ≤ slots }
        ensures dues { IfOk result (λ wheel. wheel.dues ≡ replicate items None) }
        ensures slots { IfOk result (λ wheel. wheel.slots ≡ slots) }
        ensures floor { IfOk result (λ wheel. wheel.floor ≡ 0) }
    {
        let links = Links::new(alloc, items, slots)?;
        Ok(Wheel {
            links,
            slots,
            count: 0,
            floor: 0,
        })
    }

    /// A number that no due number is below. It is at first 0. A put into an empty wheel sets it to the due number, any
    /// other put lowers it to the due number where that is less, and a take sets it to the due number taken.
    pub fn floor(&self) -> u64
        ensures { result ≡ self.now.floor }
    {
        self.floor
    }

    /// The due number of an item, where it is in.
    pub fn due_of(&self, item: u32) -> Option<u64>
        ensures { result ≡ due_of self.now.dues item }
    {
        self.links.due(item)
    }

    /// Puts an item in.
    pub fn put(&mut self, item: u32, due: u64)
        requires item { item < length self.old.dues }
        requires not_in { due_of self.old.dues item ≡ None }
        ensures puts { Puts self.old self.new item due }
    {
        self.put_over::<Brand>(item, due, Blank::new(1))
    }

    /// Takes out the item with the least pair of due number and item, and answers that item and its due number. None
    /// where no item is in.
    pub fn take_least(&mut self) -> Option<(u32, u64)>
        ensures takes { Takes self.old self.new result }
    {
        self.take_over::<Brand>(Blank::new(1))
    }

    /// As `put`, with its steps counted: at most one, and one for each item of the bucket with a greater pair of due number
    /// and item.
    pub fn put_counted<L: Ledger>(&mut self, item: u32, due: u64, steps: &mut Steps<L>)
        requires item { item < length self.old.dues }
        requires not_in { due_of self.old.dues item ≡ None }
        ensures puts { Puts self.old self.new item due }
        ensures cost { steps.new ≤ steps.old + 1 + count_behind self.old.dues self.old.slots due item }
    {
        let slot = slot_of(due, self.slots);
        let after = place_of(&self.links, slot, item, due, steps);
        self.links.link(item, due, slot, after);
        self.floor = lowered(self.floor, self.count, due);
        self.count += 1;
    }

    /// As `take_least`, with its steps counted: none where no item is in, and else at most the number of buckets, and at
    /// most one more than the due number is above the floor.
    pub fn take_least_counted<L: Ledger>(&mut self, steps: &mut Steps<L>) -> Option<(u32, u64)>
        ensures takes { Takes self.old self.new result }
        ensures cost { IfSome result (λ taken.
            steps.new ≤ steps.old + min (taken.1 - self.old.floor + 1) self.old.slots) }
        ensures no_cost { IfNone result (steps.new ≡ steps.old) }
    {
        if self.count == 0 {
            return None;
        }
        let (item, due) = self.least(steps)?;
        self.links.unlink(item);
        self.count -= 1;
        self.floor = due;
        Some((item, due))
    }

    /// Takes an item out, and answers its due number. None where it is not in.
    pub fn remove(&mut self, item: u32) -> Option<u64>
        ensures due { result ≡ due_of self.old.dues item }
        ensures dues { IfSome result (λ _. self.new.dues ≡ slice_set self.old.dues item None) }
        ensures same { IfNone result (self.new ≡ self.old) }
        ensures floor { self.new.floor ≡ self.old.floor }
        ensures slots { self.new.slots ≡ self.old.slots }
    {
        let due = self.links.due(item)?;
        self.links.unlink(item);
        self.count -= 1;
        Some(due)
    }

    /// As `put_counted`, with a counter of its own.
    fn put_over<L: Ledger>(&mut self, item: u32, due: u64, blank: Blank)
        requires name { blank.name ≡ L.name }
        requires parts { blank.parts ≡ L.parts }
        requires some { 0 < L.parts }
        requires item { item < length self.old.dues }
        requires not_in { due_of self.old.dues item ≡ None }
        ensures puts { Puts self.old self.new item due }
    {
        let mut steps = Steps::<L>::new(blank);
        self.put_counted(item, due, &mut steps)
    }

    /// As `take_least_counted`, with a counter of its own.
    fn take_over<L: Ledger>(&mut self, blank: Blank) -> Option<(u32, u64)>
        requires name { blank.name ≡ L.name }
        requires parts { blank.parts ≡ L.parts }
        requires some { 0 < L.parts }
        ensures takes { Takes self.old self.new result }
    {
        let mut steps = Steps::<L>::new(blank);
        self.take_least_counted(&mut steps)
    }

    /// The least pair, by a look at the front of each bucket from the floor's on: at the first whose due number is as far
    /// above the floor as the bucket, or else at the least of all.
    fn least<L: Ledger>(&self, steps: &mut Steps<L>) -> Option<(u32, u64)>
        ensures least { IfSome result (λ taken. IsLeast self.now.dues taken.0 taken.1) }
        ensures none { IfNone result (IsEmpty self.now.dues) }
        ensures above { IfSome result (λ taken. self.now.floor ≤ taken.1) }
        ensures cost { IfSome result (λ taken.
            steps.new ≤ steps.old + min (taken.1 - self.now.floor + 1) self.now.slots) }
    {
        let mut best = None;
        let mut slot = slot_of(self.floor, self.slots);
        for past in 0..self.slots {
            let front = self.front(slot, steps);
            if is_due(front, self.floor, past) {
                return front;
            }
            best = lesser(best, front);
            slot = next_slot(slot, self.slots);
        }
        best
    }

    /// The first item of a bucket with its due number. One step.
    fn front<L: Ledger>(&self, slot: u32, steps: &mut Steps<L>) -> Option<(u32, u64)>
        requires { slot < self.now.slots }
        ensures front { IfSome result (λ first. IsFront self.now slot first.0 first.1) }
        ensures none { IfNone result (HasNone self.now slot) }
        ensures step { steps.new ≡ steps.old + 1 }
    {
        let item = self.links.end(slot, false, steps)?;
        let due = self.links.due(item)?;
        Some((item, due))
    }
}

/// The item of a slot behind which an item with this due number belongs, which is not linked yet. None where it belongs
/// to the front. The items of the slot are in ascending order of due number and item.
fn place_of<L: Ledger>(
    links: &Links,
    slot: u32,
    item: u32,
    due: u64,
    steps: &mut Steps<L>,
) -> Option<u32>
    requires slot { slot < length links.now.lists }
    requires linked { AllLinked links.now.dues (items_of links.now.lists slot) }
    ensures place { IsPlaceOf links.now.dues (items_of links.now.lists slot) due item result (steps.new - steps.old) }
    ensures more { steps.old ≤ steps.new }
{
    let mut at = links.end(slot, true, steps);
    while let Some(other) = at {
        if comes_before(links.due(other), other, due, item) {
            return at;
        }
        at = links.beside(other, true, steps);
    }
    None
}

/// Whether the pair of a linked item's due number and the item is less than this one.
fn comes_before(other_due: Option<u64>, other: u32, due: u64, item: u32) -> bool
    ensures { result ≡ (is_some other_due && is_less (unwrap_or other_due 0) other due item) }
{
    match other_due {
        Some(other_due) => other_due < due || (other_due == due && other < item),
        None => false,
    }
}

/// Whether the item is there, and due so far above the floor.
fn is_due(front: Option<(u32, u64)>, floor: u64, past: u32) -> bool
    requires { IfSome front (λ first. floor ≤ first.1) }
    ensures { result ≡ is_due_at floor past front }
{
    match front {
        Some((_, due)) => due - floor == u64::from(past),
        None => false,
    }
}

/// The pair with the lesser due number.
fn lesser(best: Option<(u32, u64)>, other: Option<(u32, u64)>) -> Option<(u32, u64)>
    ensures { result ≡ lesser_of best other }
{
    let Some((_, least)) = best else {
        return other;
    };
    match other {
        Some((_, due)) if due < least => other,
        _ => best,
    }
}

/// The floor after a put into a wheel of so many items.
fn lowered(floor: u64, count: u32, due: u64) -> u64
    ensures { result ≡ (if count == 0 then due else min floor due) }
{
    if count == 0 { due } else { floor.min(due) }
}

/// The bucket of a due number.
fn slot_of(due: u64, slots: u32) -> u32
    requires { 1 ≤ slots }
    ensures is { result ≡ due % slots }
    ensures below { result < slots }
{
    (due % u64::from(slots)) as u32
}

/// The bucket behind this one; behind the last comes the first.
fn next_slot(slot: u32, slots: u32) -> u32
    requires { slot < slots }
    ensures is { result ≡ (slot + 1) % slots }
    ensures below { result < slots }
{
    if slot + 1 == slots { 0 } else { slot + 1 }
}
