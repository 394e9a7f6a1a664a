//! Writing the descriptors of an operational loop: ETSI TS 102 006, 9.6.

ghost use Rattle.std.specs.Prelude.{◌≡◌, ◌*◌, ◌<◌, ◌^◌, ◌++◌, OnOk, OnErr};
ghost use Rattle.si_desc.specs.Descriptors.{IsDescriptor, IsRow, subgroup_association};
ghost use Rattle.ssu_time.specs.UtcTime.{utc_bytes};
ghost use Rattle.ssu_unt.specs.Announced.{flag_for, hours_by_turns, hours_window, location_bytes, schedule_flags};
ghost use Rattle.ssu_unt.specs.Announced.{scheduling_bytes, subgroup_bytes, update_bytes};
ghost use Rattle.ssu_unt.specs.Descriptors.{location, scheduling, update_flag};

use ssu_io::NoMemory;
use ssu_time::{Utc, write_utc};

/// Appends a scheduling descriptor: the update may be taken from `start` to before `end`. Where
/// `period_hours` is above 0, it may be taken only in the first `duration_hours` of each period, counted
/// from `start`; where it is 0, `duration_hours` says nothing. `NoMemory` leaves `out` as it was.
pub fn put_scheduling(
    out: &mut Vec<u8>,
    start: Utc,
    end: Utc,
    period_hours: u8,
    duration_hours: u8,
) -> Result<(), NoMemory>
    ensures put { OnOk result (out.new.items ≡ out.old.items
        ++ scheduling_bytes (utc_bytes start.mjd start.second) (utc_bytes end.mjd end.second) period_hours duration_hours) }
    ensures read_back { OnOk result (IsDescriptor scheduling 0x01 (hours_window start end period_hours duration_hours)
        (scheduling_bytes (utc_bytes start.mjd start.second) (utc_bytes end.mjd end.second) period_hours duration_hours)) }
    ensures row { IsRow out.old.items → OnOk result (IsRow out.new.items) }
    ensures unchanged { OnErr result (out.new.items ≡ out.old.items) }
{
    out.extend_from_slice(&scheduling_of(start, end, period_hours, duration_hours))?;
    Ok(())
}

fn scheduling_of(start: Utc, end: Utc, period_hours: u8, duration_hours: u8) -> [u8; 16]
    ensures bytes { result
        ≡ scheduling_bytes (utc_bytes start.mjd start.second) (utc_bytes end.mjd end.second) period_hours duration_hours }
    ensures read_back { IsDescriptor scheduling 0x01 (hours_window start end period_hours duration_hours)
        (scheduling_bytes (utc_bytes start.mjd start.second) (utc_bytes end.mjd end.second) period_hours duration_hours) }
{
    let [s0, s1, s2, s3, s4] = write_utc(start);
    let [e0, e1, e2, e3, e4] = write_utc(end);
    let flags = flags_of(period_hours);
    let duration = duration_of(period_hours, duration_hours);
    [
        0x01,
        14,
        s0,
        s1,
        s2,
        s3,
        s4,
        e0,
        e1,
        e2,
        e3,
        e4,
        flags,
        period_hours,
        duration,
        0,
    ]
}

/// The periodicity flag where there is a period, and the units of an hour.
fn flags_of(period_hours: u8) -> u8
    ensures { result ≡ schedule_flags period_hours }
{
    if period_hours == 0 { 0x28 } else { 0x68 }
}

/// The hours of each window, none where there is no period.
fn duration_of(period_hours: u8, duration_hours: u8) -> u8
    ensures { result ≡ hours_by_turns period_hours duration_hours }
{
    if period_hours == 0 { 0 } else { duration_hours }
}

/// Appends an update descriptor: a user has to ask for the update, or it is taken unasked. `NoMemory` leaves `out` as it
/// was.
pub fn put_update(out: &mut Vec<u8>, manual: bool) -> Result<(), NoMemory>
    ensures put { OnOk result (out.new.items ≡ out.old.items ++ update_bytes manual) }
    ensures read_back { OnOk result (IsDescriptor update_flag 0x02 (flag_for manual) (update_bytes manual)) }
    ensures row { IsRow out.old.items → OnOk result (IsRow out.new.items) }
    ensures unchanged { OnErr result (out.new.items ≡ out.old.items) }
{
    let flags = update_flags(manual);
    out.extend_from_slice(&[0x02, 1, flags])?;
    Ok(())
}

/// update_flag in the two highest bits.
fn update_flags(manual: bool) -> u8
    ensures { result ≡ flag_for manual * 64 }
{
    if manual { 0 } else { 0x40 }
}

/// Appends an ssu_location descriptor that leads to the carousel of the component with this tag: an association tag
/// whose high byte is 0. `NoMemory` leaves `out` as it was.
pub fn put_ssu_location(out: &mut Vec<u8>, tag: u8) -> Result<(), NoMemory>
    ensures put { OnOk result (out.new.items ≡ out.old.items ++ location_bytes tag) }
    ensures read_back { OnOk result (IsDescriptor location 0x03 tag (location_bytes tag)) }
    ensures row { IsRow out.old.items → OnOk result (IsRow out.new.items) }
    ensures unchanged { OnErr result (out.new.items ≡ out.old.items) }
{
    out.extend_from_slice(&[0x03, 4, 0x00, 0x0A, 0, tag])?;
    Ok(())
}

/// Appends an ssu_subgroup_association descriptor of this number, which is below 2 to the power of 40. `NoMemory` leaves
/// `out` as it was.
pub fn put_ssu_subgroup(out: &mut Vec<u8>, subgroup: u64) -> Result<(), NoMemory>
    requires { subgroup < 2 ^ 40 }
    ensures put { OnOk result (out.new.items ≡ out.old.items ++ subgroup_bytes subgroup) }
    ensures read_back { OnOk result (IsDescriptor subgroup_association 0x0B subgroup (subgroup_bytes subgroup)) }
    ensures row { IsRow out.old.items → OnOk result (IsRow out.new.items) }
    ensures unchanged { OnErr result (out.new.items ≡ out.old.items) }
{
    out.extend_from_slice(&subgroup_of(subgroup))?;
    Ok(())
}

fn subgroup_of(subgroup: u64) -> [u8; 7]
    requires { subgroup < 2 ^ 40 }
    ensures bytes { result ≡ subgroup_bytes subgroup }
    ensures read_back { IsDescriptor subgroup_association 0x0B subgroup (subgroup_bytes subgroup) }
{
    let [_, _, _, a, b, c, d, e] = subgroup.to_be_bytes();
    [0x0B, 5, a, b, c, d, e]
}
