//! UTC_time: ETSI EN 300 468, annex C.

ghost use Rattle.std.specs.Prelude.{◌≡◌, ◌↔◌, ◌+◌, ◌*◌, ◌<◌, ◌≤◌, ◌^◌, IsSome, IfSome, Some};
ghost use Rattle.ssu_time.specs.UtcTime.{IsDecimal, IsUtcTime, bcd, decimal, utc_bytes, utc_seconds};

/// A second of a day, in UTC.
#[derive(Clone, Copy, Debug, PartialEq, Eq)]
pub struct Utc {
    /// The Modified Julian Date: the days since 17 November 1858.
    pub mjd: u16,
    /// The second of the day, below 86,400.
    pub second: u32,
    pub ghost in_day: { second < 86400 },
}

impl Utc {
    /// The seconds since the beginning of 17 November 1858.
    pub fn seconds(self) -> u64
        ensures { result ≡ utc_seconds self.mjd self.second }
    {
        u64::from(self.mjd) * 86400 + u64::from(self.second)
    }
}

/// The time that the five bytes are: None where one of the six digits is above 9, the hour above 23,
/// or the minute or the second above 59.
pub fn read_utc(bytes: &[u8; 5]) -> Option<Utc>
    ensures form { IsSome result ↔ IsUtcTime bytes.now }
    ensures found { IfSome result (λ t. bytes.now ≡ utc_bytes t.mjd t.second) }
    ensures only { (t : Utc) → t.mjd < 2 ^ 16 → bytes.now ≡ utc_bytes t.mjd t.second
        → result ≡ Some t }
{
    let hour = decimal_at_most(bytes[2], 23)?;
    let minute = decimal_at_most(bytes[3], 59)?;
    let second = decimal_at_most(bytes[4], 59)?;
    Some(Utc {
        mjd: u16::from(bytes[0]) * 256 + u16::from(bytes[1]),
        second: hour * 3600 + minute * 60 + second,
    })
}

/// The five bytes of the time.
pub fn write_utc(time: Utc) -> [u8; 5]
    ensures { result ≡ utc_bytes time.mjd time.second }
{
    [
        (time.mjd / 256) as u8,
        (time.mjd % 256) as u8,
        decimal_byte(time.second / 3600),
        decimal_byte(time.second / 60 % 60),
        decimal_byte(time.second % 60),
    ]
}

fn decimal_at_most(byte: u8, most: u32) -> Option<u32>
    ensures form { IsSome result ↔ IsDecimal byte most }
    ensures value { IfSome result (λ n. n ≡ decimal byte) }
{
    let (tens, ones) = (u32::from(byte / 16), u32::from(byte % 16));
    let number = tens * 10 + ones;
    if tens > 9 || ones > 9 || number > most {
        return None;
    }
    Some(number)
}

fn decimal_byte(number: u32) -> u8
    requires { number < 100 }
    ensures { result ≡ bcd number }
{
    (number / 10 * 16 + number % 10) as u8
}
