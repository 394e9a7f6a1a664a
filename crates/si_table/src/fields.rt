//! The PID, a field that several tables have.

ghost use Rattle.std.specs.Prelude.{◌≡◌};
ghost use Rattle.wire.specs.Number.{low};
ghost use Rattle.wire.specs.Read.{Reads};

use ts_packet::Pid;
use wire::u16_at;

/// 3 reserved bits and a PID.
pub(crate) fn pid_at(bytes: &[u8]) -> Option<(Pid, &[u8])>
    ensures { Reads (λ x. (x.0, x.1.now)) result ((low 2 13).at bytes.now) }
{
    let (number, rest) = u16_at(bytes)?;
    let Some(pid) = Pid::new(number % 8192) else {
        return None;
    };
    Some((pid, rest))
}
