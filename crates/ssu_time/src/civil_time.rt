//! A time as text, `YYYY-MM-DDThh:mm:ss`, on the proleptic Gregorian calendar.

ghost use Rattle.std.specs.Prelude.{◌≡◌, ℕ, ◌+◌, ◌*◌, ◌/◌, ◌%◌, ◌<◌, ◌≤◌, ◌^◌, IfSome, Some, IsTrue, ◌↔◌, length, pos, ◌+ℤ◌};
ghost use Rattle.std.specs.Option.{option_map};
ghost use Rattle.jiff.specs.Words.{epoch_day};
ghost use Rattle.ssu_time.specs.Calendar.{IsDate, IsMjd};
ghost use Rattle.ssu_time.specs.CivilText.{IsTextOf, two_digits as two_digits_lem, AreSmall, HasMarks, IsNumberAt, parts_text, civil_of};
ghost use Rattle.ssu_time.specs.TimeText.{time_text};
ghost use Rattle.ssu_time.specs.UtcField.{time_view};
ghost use Rattle.ssu_time.specs.declared.civil_time.Parts.{Parts};
ghost use Rattle.ssu_time.specs.declared.utc_time.Utc.{Utc};

use crate::utc_time::Utc;
use jiff::ToSpan;
use jiff::civil::{Date, date};

/// The parts of a text of the form, which need not be a date or a time.
#[derive(Clone, Copy)]
struct Parts {
    year: u16,
    month: u8,
    day: u8,
    hour: u8,
    minute: u8,
    second: u8,
}

/// The time that the text gives: None for all but 19 characters `YYYY-MM-DDThh:mm:ss` of a date that
/// exists, with a Modified Julian Date from 0 to 65535 (17 November 1858 to 22 April 2038), an hour to
/// 23, a minute and a second to 59.
pub fn civil(text: &str) -> Option<Utc>
    ensures found { IfSome result (λ t. IsTextOf t.mjd t.second text.now) }
    ensures only { (t : Utc) → t.mjd < 2 ^ 16 → IsTextOf t.mjd t.second text.now → result ≡ Some t }
    // The same as a function of the text.
    ensures value { option_map time_view result ≡ civil_of text.now }
{
    time_of(text)
}

fn time_of(text: &str) -> Option<Utc>
    ensures found { IfSome result (λ t. IsTextOf t.mjd t.second text.now) }
    ensures only { (t : Utc) → t.mjd < 2 ^ 16 → IsTextOf t.mjd t.second text.now → result ≡ Some t }
    ensures small { IfSome result (λ t. t.mjd < 65536) }
{
    let parts = parts_of(text.as_bytes())?;
    if parts.hour > 23 || parts.minute > 59 || parts.second > 59 {
        return None;
    }
    let mjd = day_number(parts.year, parts.month, parts.day)?;
    let second = u32::from(parts.hour) * 3600
        + u32::from(parts.minute) * 60
        + u32::from(parts.second);
    Some(Utc { mjd, second })
}

impl Utc {
    /// The text of the time, 19 characters `YYYY-MM-DDThh:mm:ss`.
    pub fn text(self) -> [u8; 19]
        ensures is { IsTextOf self.mjd self.second result }
        // The same as a function of the time.
        ensures value { result ≡ time_text self }
    {
        let (year, month, day) = date_of(self.mjd);
        let hour = (self.second / 3600) as u8;
        let minute = (self.second / 60 % 60) as u8;
        let second = (self.second % 60) as u8;
        text_of(Parts {
            year,
            month,
            day,
            hour,
            minute,
            second,
        })
    }
}

fn parts_of(text: &[u8]) -> Option<Parts>
    ensures found { IfSome result (λ p. text.now ≡ parts_text p) }
    ensures small { IfSome result AreSmall }
    ensures only { (p : Parts) → AreSmall p → text.now ≡ parts_text p → result ≡ Some p }
{
    if text.len() != 19 || !has_marks(text) {
        return None;
    }
    let century = number_at(text, 0)?;
    let year = number_at(text, 2)?;
    Some(Parts {
        year: u16::from(century) * 100 + u16::from(year),
        month: number_at(text, 5)?,
        day: number_at(text, 8)?,
        hour: number_at(text, 11)?,
        minute: number_at(text, 14)?,
        second: number_at(text, 17)?,
    })
}

fn has_marks(text: &[u8]) -> bool
    requires { length text.now ≡ 19 }
    ensures { IsTrue result ↔ HasMarks text.now }
{
    text[4] == b'-' && text[7] == b'-' && text[10] == b'T' && text[13] == b':' && text[16] == b':'
}

/// The number below 100 that two digits write.
fn number_at(text: &[u8], at: usize) -> Option<u8>
    requires { at + 1 < length text.now }
    ensures small { IfSome result (λ n. n ≤ 99) }
    ensures found { IfSome result (λ n. IsNumberAt text.now at n) }
    ensures only { (n : ℕ) → n ≤ 99 → IsNumberAt text.now at n → result ≡ Some n }
{
    let tens = digit(text[at])?;
    let ones = digit(text[at + 1])?;
    Some(tens * 10 + ones)
}

fn digit(byte: u8) -> Option<u8>
    ensures small { IfSome result (λ n. n ≤ 9) }
    ensures found { IfSome result (λ n. byte ≡ 48 + n) }
    ensures only { (n : ℕ) → n ≤ 9 → byte ≡ 48 + n → result ≡ Some n }
{
    match byte {
        b'0'..=b'9' => Some(byte - b'0'),
        _ => None,
    }
}

fn text_of(parts: Parts) -> [u8; 19]
    requires { AreSmall parts }
    ensures { result ≡ parts_text parts }
{
    let [c, y] = two_digits((parts.year / 100) as u8);
    let [e, a] = two_digits((parts.year % 100) as u8);
    let [m, n] = two_digits(parts.month);
    let [d, f] = two_digits(parts.day);
    let [h, i] = two_digits(parts.hour);
    let [j, k] = two_digits(parts.minute);
    let [s, r] = two_digits(parts.second);
    [
        c, y, e, a, b'-', m, n, b'-', d, f, b'T', h, i, b':', j, k, b':', s, r,
    ]
}

fn two_digits(number: u8) -> [u8; 2]
    requires { number ≤ 99 }
    ensures { result ≡ two_digits_lem number }
{
    [b'0' + number / 10, b'0' + number % 10]
}

/// The Modified Julian Date of the date, where the calendar has it and the number has 16 bits.
fn day_number(year: u16, month: u8, day: u8) -> Option<u16>
    requires year_in { year ≤ 9999 }
    requires month_in { month ≤ 99 }
    requires day_in { day ≤ 99 }
    ensures found { IfSome result (λ mjd. IsDate year month day × IsMjd year month day mjd) }
    ensures only { (mjd : ℕ) → mjd < 2 ^ 16 → IsDate year month day → IsMjd year month day mjd
        → result ≡ Some mjd }
{
    match Date::new(year as i16, month as i8, day as i8) {
        Ok(date) => mjd_of(date),
        Err(_) => None,
    }
}

fn mjd_of(date: Date) -> Option<u16>
    ensures found { IfSome result (λ mjd. epoch_day date +ℤ pos 40587 ≡ pos mjd) }
    ensures only { (mjd : ℕ) → mjd < 2 ^ 16 → epoch_day date +ℤ pos 40587 ≡ pos mjd
        → result ≡ Some mjd }
{
    let mjd = days_to(date);
    if mjd < 0 || mjd > 65535 {
        return None;
    }
    Some(mjd as u16)
}

/// The year, the month and the day of a Modified Julian Date.
fn date_of(mjd: u16) -> (u16, u8, u8)
    ensures year_in { result.0 ≤ 9999 }
    ensures date { IsDate result.0 result.1 result.2 }
    ensures day { IsMjd result.0 result.1 result.2 mjd }
{
    let date = date_at(mjd);
    (date.year() as u16, date.month() as u8, date.day() as u8)
}

fn date_at(mjd: u16) -> Date
    ensures { epoch_day result +ℤ pos 40587 ≡ pos mjd }
{
    first_day().checked_add(i64::from(mjd).days()).unwrap()
}

/// The day with Modified Julian Date 0, 17 November 1858.
fn first_day() -> Date
    ensures { epoch_day result +ℤ pos 40587 ≡ pos 0 }
{
    date(1858, 11, 17)
}

/// The days from that day to the date, below 0 before it.
fn days_to(date: Date) -> i64
    ensures { epoch_day date +ℤ pos 40587 ≡ result }
{
    date.duration_since(first_day()).as_hours() / 24
}
