//! Vectors from outside: the example of ETSI EN 300 468, annex C, and days of other calendars.

use crate::check::{same, same_at};
use ssu_time::*;
use std::test::Fail;

fn written(text: &str) -> Option<[u8; 5]> {
    let time = civil(text)?;
    Some(write_utc(time))
}

#[test]
fn the_standards_example_is_read_and_written(rt: HostRuntime) -> Result<(), Fail> {
    let bytes = [0xC0, 0x79, 0x12, 0x45, 0x00];
    let time = read_utc(&bytes).expect(&rt, "no time");
    same(&rt, &time.mjd, &49273);
    same(&rt, &time.second, &45900);
    same(&rt, &time.seconds(), &4_257_233_100);
    same(&rt, &time.text(), &*b"1993-10-13T12:45:00");
    same(&rt, &write_utc(time), &bytes);
    same(&rt, &read_utc(&[0xC0, 0x79, 0x24, 0x45, 0x00]), &None);
    same(&rt, &read_utc(&[0xC0, 0x79, 0x12, 0x45, 0x60]), &None);
    same(&rt, &read_utc(&[0xC0, 0x79, 0x0A, 0x45, 0x00]), &None);
    Ok(())
}

#[test]
fn a_time_stands_at_the_front(rt: HostRuntime) -> Result<(), Fail> {
    let bytes = [0xC0, 0x79, 0x12, 0x45, 0x00, 7];
    let (time, rest) = utc_at(&bytes).expect(&rt, "no time");
    same(&rt, &time.text(), &*b"1993-10-13T12:45:00");
    same(&rt, &rest.len(), &1);
    assert!(rt; utc_at(&bytes[..4]).is_none());
    Ok(())
}

#[test]
fn texts_give_their_day_number(rt: HostRuntime) -> Result<(), Fail> {
    for (text, mjd) in [
        ("1858-11-17T00:00:00", 0),
        ("1900-03-01T00:00:00", 15079),
        ("1970-01-01T00:00:00", 40587),
        ("2000-02-29T23:59:59", 51603),
        ("2024-03-01T01:00:00", 60370),
        ("2038-04-22T00:00:00", 65535),
    ] {
        let time = civil(text).expect(&rt, "no time");
        same_at(&rt, text, &time.mjd, &mjd);
        same(&rt, &time.text().as_slice(), &text.as_bytes());
    }
    Ok(())
}

#[test]
fn other_texts_are_refused(rt: HostRuntime) {
    for text in [
        "",
        "1858-11-16T23:59:59",
        "2038-04-23T00:00:00",
        "1900-02-29T00:00:00",
        "2023-02-29T00:00:00",
        "2024-13-01T00:00:00",
        "2024-00-01T00:00:00",
        "2024-04-31T00:00:00",
        "2024-03-01T24:00:00",
        "2024-03-01T00:60:00",
        "2024-03-01T00:00:60",
        "2024-03-01 00:00:00",
        "2024-03-01T00:00:00Z",
        "2024-3-01T00:00:000",
        "+024-03-01T00:00:00",
    ] {
        same_at(&rt, text, &written(text), &None);
    }
}

#[test]
fn a_nightly_window_opens_for_two_hours(rt: HostRuntime) -> Result<(), Fail> {
    let window = Window {
        start: civil("2024-03-01T01:00:00").expect(&rt, "start").seconds(),
        end: civil("2024-04-01T01:00:00").expect(&rt, "end").seconds(),
        period: 24 * 3600,
        duration: 2 * 3600,
    };
    for (text, open) in [
        ("2024-03-05T01:00:00", true),
        ("2024-03-05T02:59:59", true),
        ("2024-03-05T03:00:00", false),
        ("2024-03-05T00:59:59", false),
        ("2024-04-01T00:59:59", false),
        ("2024-04-01T01:00:00", false),
        ("2024-03-01T00:59:59", false),
    ] {
        let now = civil(text).expect(&rt, "now").seconds();
        same_at(&rt, text, &window.is_open(now), &open);
    }
    Ok(())
}
