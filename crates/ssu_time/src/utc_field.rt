//! UTC_time as a field of a table: ETSI EN 300 468, annex C.

ghost use Rattle.wire.specs.Read.{Reads};
ghost use Rattle.ssu_time.specs.UtcField.{time_view, utc};

use crate::utc_time::{Utc, read_utc};
use wire::raw_at;

/// The time at the front of the bytes, and the bytes behind it: None exactly where there are fewer
/// than five bytes, or the first five are no time.
#[tactic(auto, unfolding(crate::specs::UtcField::utc))]
pub fn utc_at(bytes: &[u8]) -> Option<(Utc, &[u8])>
    ensures { Reads (λ x. (time_view x.0, x.1.now)) result (utc.at bytes.now) }
{
    let (front, rest) = raw_at(bytes, 5)?;
    let Some(time) = read_utc(&[front[0], front[1], front[2], front[3], front[4]]) else {
        return None;
    };
    Some((time, rest))
}
