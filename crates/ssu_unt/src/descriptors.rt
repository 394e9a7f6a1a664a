//! The descriptors of a notification table: ETSI TS 102 006, 9.6.

ghost use Rattle.std.specs.Prelude.{◌≡◌, ◌==◌, ◌%◌, ◌/◌, ◌<◌, ◌≤◌, bit_and};
ghost use Rattle.std.specs.List.{list_any};
ghost use Rattle.wire.specs.Items.{items_of};
ghost use Rattle.wire.specs.Number.{number};
ghost use Rattle.wire.specs.Read.{Reads};
ghost use Rattle.ssu_unt.specs.Descriptors.{location, mac_targets, names_mac as names, scheduling, turns_if};
ghost use Rattle.ssu_unt.specs.Descriptors.{unit_seconds as seconds_of_unit, update_flag, window_of as window};

use ssu_time::{Window, utc_at};
use wire::{Item, Items, u8_at, u16_at, u48_at};

/// The window of a scheduling descriptor: one that is never open, where the body is not of its form.
#[tactic(auto, unfolding(crate::specs::Descriptors::window_of))]
pub(crate) fn window_of(body: &[u8]) -> Window
    ensures { result ≡ window body.now }
{
    match window_in(body) {
        Some(window) => window,
        None => Window {
            start: 0,
            end: 0,
            period: 0,
            duration: 0,
        },
    }
}

#[tactic(auto, unfolding(crate::specs::Descriptors::scheduling))]
fn window_in(body: &[u8]) -> Option<Window>
    ensures { Reads (λ w. w) result (scheduling.of body.now) }
{
    let (start, rest) = utc_at(body)?;
    let (end, rest) = utc_at(rest)?;
    let (flags, rest) = u8_at(rest)?;
    let (period, duration) = turns_of(flags, rest)?;
    Some(Window {
        start: start.seconds(),
        end: end.seconds(),
        period,
        duration,
    })
}

/// Period and duration in seconds, both 0 without the periodicity flag.
fn turns_of(flags: u8, bytes: &[u8]) -> Option<(u64, u64)>
    ensures { Reads (λ x. x) result ((turns_if (flags / 64 % 2 == 1) flags).of bytes.now) }
{
    if flags / 64 % 2 == 1 {
        let (period, rest) = u8_at(bytes)?;
        let (duration, rest) = u8_at(rest)?;
        let (_, _) = u8_at(rest)?;
        let period = u64::from(period) * unit_seconds(flags / 16 % 4);
        let duration = u64::from(duration) * unit_seconds(flags / 4 % 4);
        return Some((period, duration));
    }
    Some((0, 0))
}

fn unit_seconds(unit: u8) -> u64
    ensures value { result ≡ seconds_of_unit unit }
    ensures bound { result ≤ 86400 }
{
    match unit {
        0 => 1,
        1 => 60,
        2 => 3600,
        _ => 86400,
    }
}

/// The update_flag of an update descriptor.
#[tactic(auto, unfolding(crate::specs::Descriptors::update_flag))]
pub(crate) fn update_flag_of(body: &[u8]) -> Option<u8>
    ensures { Reads (λ x. x) result (update_flag.of body.now) }
{
    let (flags, _) = u8_at(body)?;
    Some(flags / 64)
}

/// The component tag of an ssu_location descriptor, the low byte of its association tag, if the high byte is 0.
#[tactic(auto, unfolding(crate::specs::Descriptors::location))]
pub(crate) fn location_of(body: &[u8]) -> Option<u8>
    ensures { Reads (λ x. x) result (location.of body.now) }
{
    let (id, rest) = u16_at(body)?;
    if id != 0x000A {
        return None;
    }
    let (high, rest) = u8_at(rest)?;
    if high != 0 {
        return None;
    }
    let (tag, _) = u8_at(rest)?;
    Some(tag)
}

/// Whether a target MAC address descriptor names the address: one of its matches equals it in all bits
/// of the mask.
#[tactic(auto, unfolding(crate::specs::Descriptors::names_mac))]
pub(crate) fn names_mac(mac: &[u8; 6], body: &[u8]) -> bool
    ensures { result ≡ names mac.now body.now }
{
    let number = u64::from_be_bytes([0, 0, mac[0], mac[1], mac[2], mac[3], mac[4], mac[5]]);
    match mac_targets_in(body) {
        Some((mask, matches)) => has_match(number, mask, matches),
        None => false,
    }
}

#[derive(Drop)]
struct Match(u64);

impl<'a> Item<'a> for Match {
    ghost use Rattle.std.specs.Prelude.{ℕ, refl};
    ghost use Rattle.wire.specs.Number.{number};
    ghost use Rattle.wire.proofs.Numbers.{number6};

    ghost Seen = { ℕ };

    ghost format = { number 6 };

    ghost exact = { number6 };

    ghost view = { λ m. m.0 };

    fn at(bytes: &'a [u8]) -> Option<(Self, &'a [u8])> {
        let (number, rest) = u48_at(bytes)?;
        Some((Match(number), rest))
    }
}

type Matches<'a> = Items<'a, Match>;

#[tactic(auto, unfolding(crate::specs::Descriptors::mac_targets))]
fn mac_targets_in(body: &[u8]) -> Option<(u64, Matches<'_>)>
    ensures { Reads (λ x. (x.0, items_of (number 6) x.1)) result (mac_targets.of body.now) }
{
    let (mask, rest) = u48_at(body)?;
    let Some(matches) = Items::to_end(rest) else {
        return None;
    };
    Some((mask, matches))
}

fn has_match(mac: u64, mask: u64, matches: Matches<'_>) -> bool
    ensures { result
        ≡ list_any (λ match. bit_and match mask == bit_and mac mask) (items_of (number 6) matches.entry) }
{
    for item in matches {
        if item.0 & mask == mac & mask {
            return true;
        }
    }
    false
}
