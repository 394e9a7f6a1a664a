//! One iterator for all rows of items.

ghost use Rattle.std.specs.Prelude.{◌≡◌};
ghost use Rattle.wire.specs.Format.{Front, exactly, items_at, to_end};
ghost use Rattle.wire.specs.Items.{items_of};
ghost use Rattle.wire.specs.Exact.{IsFront};
ghost use Rattle.wire.specs.Read.{Reads};

use std::marker::{Model, PhantomData};

/// What stands one after the other in a row: an entry, a descriptor, a stream.
pub trait Item<'a>: Sized + Drop {
    /// The item without where its bytes lie.
    ghost Seen: { Type 0 };

    ghost format: { Front Seen };

    ghost exact: { IsFront format };

    ghost view: { Self → Seen };

    /// The item at the front, and the bytes behind it.
    fn at(bytes: &'a [u8]) -> Option<(Self, &'a [u8])>
        ensures { Reads (λ x. (view x.0, x.1.now)) result (format.at bytes.now) };
}

/// The items of a row, one after the other, up to the first place where no whole item stands.
///
/// A contract sees the bytes that are left; `items_of format bytes` are the items in them.
#[derive(Drop)]
pub struct Items<'a, X> {
    bytes: &'a [u8],
    of: PhantomData<X>,
}

impl<'a, X> Model for Items<'a, X> {
    ghost use Rattle.std.specs.Prelude.{List, ℕ};

    ghost Value = { List ℕ };

    ghost view = { λ s. s.bytes.now };
}

impl<'a, X: Item<'a>> Items<'a, X> {
    /// The items of these bytes.
    pub fn new(bytes: &'a [u8]) -> Self
        ensures { result ≡ bytes.now }
    {
        Items {
            bytes,
            of: PhantomData,
        }
    }

    /// The same items once more.
    pub fn again(&self) -> Self
        ensures { result ≡ self.now }
    {
        Items::new(self.bytes)
    }

    /// The items that fill the bytes. `None` comes exactly where whole items do not.
    pub fn to_end(bytes: &'a [u8]) -> Option<Self>
        ensures { Reads (λ items. items_of X.format items) result ((to_end X.format).of bytes.now) }
    {
        let mut rest = bytes;
        while !rest.is_empty() {
            let (_, behind) = X::at(rest)?;
            rest = behind;
        }
        Some(Items::new(bytes))
    }

    /// Exactly `count` items, which fill the bytes. `None` comes exactly where they do not.
    pub fn exactly(count: usize, bytes: &'a [u8]) -> Option<Self>
        ensures { Reads (λ items. items_of X.format items) result ((exactly count X.format).of bytes.now) }
    {
        let (items, rest) = Items::counted(count, bytes)?;
        if rest.is_empty() { Some(items) } else { None }
    }

    /// The first `count` items, and the bytes behind them. `None` comes exactly where there are fewer.
    pub fn counted(count: usize, bytes: &'a [u8]) -> Option<(Self, &'a [u8])>
        ensures { Reads (λ x. (items_of X.format x.0, x.1.now)) result (items_at X.format.at count bytes.now) }
    {
        let mut rest = bytes;
        for _ in 0..count {
            let (_, behind) = X::at(rest)?;
            rest = behind;
        }
        let (items, rest) = bytes.split_at(bytes.len() - rest.len());
        Some((Items::new(items), rest))
    }
}

impl<'a, X: Item<'a>> Iterator for Items<'a, X> {
    ghost use Rattle.std.specs.Iterator.{YieldsFirstBy, item_count};
    ghost use Rattle.wire.specs.Items.{items_of};

    type Item = X;

    ghost next_gives = { YieldsFirstBy X.view (items_of X.format) };

    ghost remaining = { item_count (items_of X.format) };

    fn next(&mut self) -> Option<X> {
        let (item, behind) = X::at(self.bytes)?;
        self.bytes = behind;
        Some(item)
    }
}
