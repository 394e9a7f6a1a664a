//! A buffer is filled over short takes.
ghost use Rattle.std.specs.Prelude.{◌≡◌, ◌≤◌, ◌<◌, ℕ, List, length, take, IfOk, IfErr, OnErr};
ghost use Rattle.ssu_io.specs.Bytes.{Takes};
ghost use Rattle.ssu_io.specs.Faults.{HasCause};
ghost use Rattle.ts_input.specs.Input.{TakesFewer};
ghost use Rattle.ts_input.specs.Packets.{IsAtEnd};

use ssu_io::{Failed, Source};

/// Takes bytes until the buffer is full or the source is at its end, and answers how many came.
pub(crate) fn fill<A: Source>(air: &mut A, buf: &mut [u8]) -> Result<usize, Failed>
    ensures within { IfOk result (λ n. n ≤ length buf.new) }
    ensures taken { IfOk result (λ n. Takes (A.left air.old) (A.left air.new) (take n buf.new)) }
    ensures end { IfOk result (λ n. n < length buf.new → IsAtEnd (A.left air.new)) }
    ensures failed { OnErr result (TakesFewer (A.left air.old) (A.left air.new) (length buf.new)) }
    ensures cause { HasCause (A.faults air.old) (A.faults air.new) result }
{
    let mut at = 0;
    while at < buf.len() {
        let n = air.take(&mut buf[at..])?;
        if n == 0 {
            return Ok(at);
        }
        at += n;
    }
    Ok(at)
}
