//! Packets over short takes, and how they end.

use crate::check::same;
use ssu_io::MemSource;
use std::alloc::{AllocError, Global};
use std::test::Fail;
use ts_input::{Ended, PacketInput};

fn source(alloc: Global, len: usize, step: u32, fails: &[u32]) -> Result<MemSource, AllocError> {
    Ok(MemSource::new(vec![in alloc; 7; len]?, step.max(1), fails.to_vec(alloc)?))
}

/// How many packets come, and how they end. `None` where ten come and more.
fn packets_of(air: &mut MemSource) -> Option<(u32, Ended)> {
    let mut input = PacketInput::new();
    for _ in 0..10u32 {
        if !input.next(air) {
            return Some((input.count(), input.ended(air)));
        }
    }
    None
}

#[test]
fn packets_come_over_short_takes(rt: HostRuntime) -> Result<(), Fail> {
    let alloc = rt.alloc();
    let none: [u32; 0] = [];
    // bytes, step, failing calls; packets, how they ended
    let rows: [(usize, u32, &[u32], u32, Ended); 6] = [
        (0, 1, &none, 0, Ended::End),
        (100, 1000, &none, 0, Ended::End),
        (188, 1, &none, 1, Ended::End),
        (288, 7, &none, 1, Ended::End),
        (3 * 188, 188, &[2], 1, Ended::Failed),
        (3 * 188, 100, &[2], 0, Ended::Failed),
    ];
    for (len, step, fails, given, last) in rows {
        let mut air = source(alloc, len, step, fails)?;
        same(
            &rt,
            &(len, step, packets_of(&mut air)),
            &(len, step, Some((given, last))),
        );
    }
    Ok(())
}
