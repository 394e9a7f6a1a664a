//! Lists of items, one for each slot: doubly linked, by index.

ghost use Rattle.std.specs.Prelude.{◌≡◌, ℕ, ◌+◌, ◌^◌, ◌<◌, ◌≤◌, if◌then◌else◌, not, ◌==◌, List, [], ◌∷◌, ◌++◌, map, filter};
ghost use Rattle.std.specs.Prelude.{length, replicate, slice_index, slice_set, None, Some, IfOk, IfSome, IsSome, Contains, unwrap_or};
ghost use Rattle.std.specs.List.{range_with_len};
ghost use Rattle.due_wheel.specs.Due.{due_of};
ghost use Rattle.due_wheel.specs.Lists.{items_of, last_of, end_of, beside_of};
ghost use Rattle.due_wheel.specs.Rings.{item_of};

use crate::Steps;
use ssu_io::NoMemory;
use std::alloc::Global;
use std::marker::Model;
use std::sync::ledger::Ledger;

/// Lists of items, one for each slot, and the due numbers of the items that stand in them. Items and slots are numbers
/// from 0.
///
/// A contract sees the list of each slot, and at the index of each item its due number, or None where the item is not
/// linked.
#[derive(Drop)]
pub struct Links {
    /// The due number of each item that is linked.
    dues: Vec<Option<u64>>,
    /// The node behind each node. The nodes are the items and, after those, one for each slot: it stands behind the last
    /// item of the slot and before the first, so that its neighbours are both ends of the list.
    next: Vec<usize>,
    /// The node before each node.
    previous: Vec<usize>,
}

impl Model for Links {
    ghost use Rattle.std.specs.Prelude.{length};
    ghost use Rattle.due_wheel.specs.Lists.{LinkedLists};
    ghost use Rattle.due_wheel.specs.Rings.{AreRings, lists_of};

    ghost Value = { LinkedLists };

    ghost view = { λ l. record { lists = lists_of l.next.items (length l.dues.items); dues = l.dues.items } };

    ghost invariant = { λ l. AreRings l.next.items l.previous.items l.dues.items (lists_of l.next.items (length l.dues.items)) };
}

impl Links {
    /// Empty lists for so many slots, and room for the items below `items`.
    ///
    /// # Errors
    ///
    /// `NoMemory` where memory ran out.
    pub fn new(alloc: Global, items: u32, slots: u32) -> Result<Links, NoMemory>
        requires { 1 ≤ slots }
        ensures lists { IfOk result (λ links. links.lists ≡ replicate slots []) }
        ensures dues { IfOk result (λ links. links.dues ≡ replicate items None) }
    {
        let mut dues = Vec::new(alloc);
        dues.resize(items as usize, None)?;
        let nodes = items as usize + slots as usize;
        let next = own_neighbours(alloc, nodes)?;
        let previous = own_neighbours(alloc, nodes)?;
        Ok(Links {
            dues,
            next,
            previous,
        })
    }

    /// The last item of a slot, or with `back` false the first. One step.
    pub fn end<L: Ledger>(&self, slot: u32, back: bool, steps: &mut Steps<L>) -> Option<u32>
        requires { slot < length self.now.lists }
        ensures end { result ≡ end_of back (items_of self.now.lists slot) }
        ensures step { steps.new ≡ steps.old + 1 }
    {
        steps.tick();
        let items = self.dues.len();
        neighbour(
            &self.next,
            &self.previous,
            items,
            items + slot as usize,
            back,
        )
    }

    /// The item before a linked item, or with `back` false the item behind it. One step.
    pub fn beside<L: Ledger>(&self, item: u32, back: bool, steps: &mut Steps<L>) -> Option<u32>
        requires { IsSome (due_of self.now.dues item) }
        ensures beside { (slot : ℕ) (before behind : List ℕ)
            → items_of self.now.lists slot ≡ before ++ item ∷ behind → result ≡ beside_of back before behind }
        ensures step { steps.new ≡ steps.old + 1 }
    {
        steps.tick();
        neighbour(
            &self.next,
            &self.previous,
            self.dues.len(),
            item as usize,
            back,
        )
    }

    /// Links an item into the list of a slot, behind the item `after`, or at the front.
    pub fn link(&mut self, item: u32, due: u64, slot: u32, after: Option<u32>)
        requires item { item < length self.old.dues }
        requires not_linked { due_of self.old.dues item ≡ None }
        requires slot { slot < length self.old.lists }
        requires after { IfSome after (Contains (items_of self.old.lists slot)) }
        ensures dues { self.new.dues ≡ slice_set self.old.dues item (Some due) }
        ensures lists { (before behind : List ℕ)
            → items_of self.old.lists slot ≡ before ++ behind → last_of before ≡ after
            → self.new.lists ≡ slice_set self.old.lists slot (before ++ item ∷ behind) }
    {
        let node = item as usize;
        let front = node_of(after, self.dues.len() + slot as usize);
        let behind = self.next[front];
        join(&mut self.next, &mut self.previous, front, node);
        join(&mut self.next, &mut self.previous, node, behind);
        self.dues[node] = Some(due);
    }

    /// Takes a linked item out of its list.
    pub fn unlink(&mut self, item: u32)
        requires { IsSome (due_of self.old.dues item) }
        ensures dues { self.new.dues ≡ slice_set self.old.dues item None }
        ensures lists { self.new.lists ≡ map (filter (λ other. not (other == item))) self.old.lists }
    {
        let node = item as usize;
        let front = self.previous[node];
        let behind = self.next[node];
        join(&mut self.next, &mut self.previous, front, behind);
        self.dues[node] = None;
    }

    /// The due number of an item, where it is linked.
    pub fn due(&self, item: u32) -> Option<u64>
        ensures { result ≡ due_of self.now.dues item }
    {
        self.dues.get(item as usize).copied().flatten()
    }
}

/// The item beside a node, if it is one: before it, or with `back` false behind it. The items are the nodes below `items`.
fn neighbour(
    next: &[usize],
    previous: &[usize],
    items: usize,
    node: usize,
    back: bool,
) -> Option<u32>
    requires next { node < length next.now }
    requires previous { node < length previous.now }
    requires items { items < 2 ^ 32 }
    ensures { result ≡ item_of items (if back then slice_index previous.now node else slice_index next.now node) }
{
    let other = if back { previous[node] } else { next[node] };
    if other < items {
        Some(other as u32)
    } else {
        None
    }
}

/// Makes two nodes neighbours, one behind the other.
fn join(next: &mut Vec<usize>, previous: &mut Vec<usize>, front: usize, behind: usize)
    requires front { front < length next.old.items }
    requires behind { behind < length previous.old.items }
    ensures next { next.new.items ≡ slice_set next.old.items front behind }
    ensures previous { previous.new.items ≡ slice_set previous.old.items behind front }
{
    next[front] = behind;
    previous[behind] = front;
}

/// The node of an item, or else this one.
fn node_of(item: Option<u32>, otherwise: usize) -> usize
    ensures { result ≡ unwrap_or item otherwise }
{
    item.map_or(otherwise, |item| item as usize)
}

/// So many nodes, each with itself as its neighbour.
fn own_neighbours(alloc: Global, nodes: usize) -> Result<Vec<usize>, NoMemory>
    ensures { IfOk result (λ neighbours. neighbours.items ≡ range_with_len 0 nodes) }
{
    let mut neighbours = Vec::new(alloc);
    for node in 0..nodes {
        neighbours.push(node)?;
    }
    Ok(neighbours)
}
