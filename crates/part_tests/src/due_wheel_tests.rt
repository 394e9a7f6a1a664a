//! Tests of the wheel of due numbers: a few items by hand, and a million.

ghost use Rattle.std.specs.Prelude.{◌≡◌, ◌<◌, ◌≤◌, length};

use crate::check::same;
use due_wheel::{Steps, Wheel};
use std::alloc::Global;
use std::marker::Brand;
use std::process::Abort;
use std::sync::ledger::{Blank, Ledger};
use std::test::Fail;

/// A take: the floor before it, and what is taken.
const TAKES: [(u64, Option<(u32, u64)>); 4] = [
    (2, Some((2, 2))),
    (2, Some((0, 5))),
    (5, Some((1, 5))),
    (5, None),
];

fn take<L: Ledger>(wheel: &mut Wheel, blank: Blank) -> Option<(u32, u64)>
    requires name { blank.name ≡ L.name }
    requires parts { blank.parts ≡ L.parts }
    requires some { 0 < L.parts }
{
    let mut steps = Steps::<L>::new(blank);
    wheel.take_least_counted(&mut steps)
}

/// Puts an item in, after a look at the conditions.
fn put(rt: &impl Abort, wheel: &mut Wheel, items: u32, item: u32, due: u64)
    requires { length wheel.old.dues ≡ items }
    ensures { length wheel.new.dues ≡ items }
{
    assert!(rt; item < items);
    assert!(rt; wheel.due_of(item).is_none());
    wheel.put(item, due);
}

#[test]
fn ties_go_to_the_lesser_item(rt: HostRuntime) -> Result<(), Fail> {
    let mut wheel = Wheel::new(rt.alloc(), 3, 4)?;
    wheel.put(0, 5);
    wheel.put(1, 5);
    wheel.put(2, 2);
    for (floor, taken) in TAKES {
        same(&rt, &wheel.floor(), &floor);
        same(&rt, &take::<Brand>(&mut wheel, Blank::new(1)), &taken);
    }
    Ok(())
}

#[test]
fn an_item_is_removed_between_two_others(rt: HostRuntime) -> Result<(), Fail> {
    let mut wheel = Wheel::new(rt.alloc(), 3, 4)?;
    wheel.put(0, 3);
    wheel.put(1, 7);
    wheel.put(2, 11);
    same(&rt, &wheel.remove(1), &Some(7));
    same(&rt, &wheel.remove(1), &None);
    same(&rt, &wheel.take_least(), &Some((0, 3)));
    same(&rt, &wheel.take_least(), &Some((2, 11)));
    same(&rt, &wheel.take_least(), &None);
    Ok(())
}

/// Puts each item below `items` in, with itself as its due number.
fn put_each(rt: &impl Abort, wheel: &mut Wheel, items: u32)
    requires { length wheel.old.dues ≡ items }
    ensures { length wheel.new.dues ≡ items }
{
    for item in 0..items {
        put(rt, wheel, items, item, u64::from(item));
    }
}

/// Takes each item in order, with due numbers from `first` on, and puts it in again so much later.
fn take_each(rt: &impl Abort, wheel: &mut Wheel, items: u32, first: u32, later: u32)
    requires { length wheel.old.dues ≡ items }
    ensures { length wheel.new.dues ≡ items }
{
    for item in 0..items {
        let due = u64::from(first) + u64::from(item);
        assert!(rt; wheel.take_least() == Some((item, due)));
        put(rt, wheel, items, item, due + u64::from(later));
    }
}

/// Takes each item two times.
fn take_twice(
    rt: &impl Abort,
    alloc: Global,
    items: u32,
    slots: u32,
    later: u32,
) -> Result<(), Fail>
    requires { 1 ≤ slots }
{
    let mut wheel = Wheel::new(alloc, items, slots)?;
    put_each(rt, &mut wheel, items);
    take_each(rt, &mut wheel, items, 0, later);
    take_each(rt, &mut wheel, items, later, later);
    Ok(())
}

#[test]
fn a_million_items_are_taken_twice(rt: HostRuntime) -> Result<(), Fail> {
    take_twice(&rt, rt.alloc(), 1_000_000, 131_072, 1_250_000)
}
