//! `replay` goes on from the blocks that the flash kept of an earlier one, in layout 2.

use crate::check::same;
use crate::commands::{Receiver, file_of, front, shelf_with};
use flash_dev::{MemFlash, Tear};
use std::alloc::{AllocError, Global};
use std::process::Abort;
use std::test::Fail;

const BOX: &str = "oui = 4660
model = 7
version = 1
rule = \"newer\"
software_model = 1
software_version = 1
";

/// The tables, the DSI, the DII and the ten blocks of one file, each once.
const PLAN: &str = "ts = 1
network = 2
service = 3
oui = 4660
time = \"2024-03-01T02:00:00\"
pmt_pid = 256
data_pid = 258
turns = 16
[[group]]
model = 7
version = 1
software_model = 1
software_version = 2
block_size = 4066
modules = [\"a.bin\"]
";

const OLD: &[u8] = b"sixteen bytes...";

const BLOCK: usize = 4096;

/// Where bank 1 and the journal behind it begin, and in that its slots, behind four blocks of header and marks.
const BANK_1: usize = 261 * BLOCK;

const JOURNAL_1: usize = BANK_1 + 974_848;

const SLOTS_1: usize = JOURNAL_1 + 4 * BLOCK;

/// The packets of the four tables, the DSI and the DII, and those of six blocks behind them.
const HEAD: usize = 6 * 188;

const SIX: usize = 144 * 188;

/// The exit codes and lines of a replay: the group is whole, or so many blocks are missing.
const WHOLE: (u8, &str) = (0, "installed group 2147483650 software 1.2 bytes 40660\n");

const ONE_MISSING: (u8, &str) = (7, "incomplete group 2147483650 missing 1\n");

const FOUR_MISSING: (u8, &str) = (7, "incomplete group 2147483650 missing 4\n");

const SIX_MISSING: (u8, &str) = (7, "incomplete group 2147483650 missing 6\n");

/// A file of 40,660 bytes, none of which is 255.
fn file(alloc: Global) -> Result<Vec<u8>, AllocError> {
    file_of(alloc, 0, 40_660)
}

/// A box with an update of this file, and a flash of 520 blocks with the old image, which is of layout 2.
fn receiver_of(alloc: Global, file: &[u8]) -> Result<Receiver, Fail> {
    let shelf = shelf_with(
        alloc,
        &[
            ("box.toml", BOX.as_bytes()),
            ("old.bin", OLD),
            ("plan.toml", PLAN.as_bytes()),
            ("a.bin", file),
        ],
    )?;
    let mut receiver = Receiver::formatted(alloc, shelf, MemFlash::blank(alloc, 520, 4096, 600)?)?;
    receiver.restart(alloc)?;
    Ok(receiver)
}

/// The packets of the tables, the DSI and the DII, and these behind them.
fn joined(alloc: Global, packets: &[u8], behind: Option<&[u8]>) -> Result<Vec<u8>, Fail> {
    let mut joined = front(packets, HEAD)?.to_vec(alloc)?;
    joined.extend_from_slice(behind.ok_or("as many packets")?)?;
    Ok(joined)
}

/// A box, and the packets of its update: all, and those without the first six blocks.
#[derive(Drop)]
struct Update {
    receiver: Receiver,
    all: Vec<u8>,
    without: Vec<u8>,
}

impl Update {
    fn new(alloc: Global) -> Result<Update, Fail> {
        let mut receiver = receiver_of(alloc, &file(alloc)?)?;
        let all = receiver.packets(alloc)?;
        if all.len() != 236 * 188 {
            return Err("not 236 packets".into());
        }
        let without = joined(alloc, &all, all.get(SIX..))?;
        Ok(Update {
            receiver,
            all,
            without,
        })
    }

    /// Replays the front of the packets after the power was away.
    fn replays_front(
        &mut self,
        rt: &impl Abort,
        alloc: Global,
        len: usize,
        ended: (u8, &str),
    ) -> Result<(), Fail> {
        self.receiver.restart(alloc)?;
        self.receiver
            .replays(rt, alloc, front(&self.all, len)?, ended)
    }

    /// Replays the packets without the first six blocks after the power was away.
    fn replays_rest(
        &mut self,
        rt: &impl Abort,
        alloc: Global,
        ended: (u8, &str),
    ) -> Result<(), Fail> {
        self.receiver.restart(alloc)?;
        self.receiver.replays(rt, alloc, &self.without, ended)
    }
}

#[test]
fn blocks_that_were_stored_are_not_fetched_again(rt: HostRuntime) -> Result<(), Fail> {
    let alloc = rt.alloc();
    let mut update = Update::new(alloc)?;
    update.replays_front(&rt, alloc, SIX, FOUR_MISSING)?;
    update.replays_rest(&rt, alloc, WHOLE)?;
    update.receiver.boots(&rt, alloc, &file(alloc)?)?;
    // and of a flash that kept none the first six are missing
    Update::new(alloc)?.replays_rest(&rt, alloc, SIX_MISSING)
}

#[test]
fn a_place_whose_mark_is_lost_goes_to_a_slot(rt: HostRuntime) -> Result<(), Fail> {
    let alloc = rt.alloc();
    let mut update = Update::new(alloc)?;
    // the last call of these packets, which marks the sixth block
    update.receiver.flash.stop_at(369, Tear::Front(0));
    update.receiver.fails(&rt, alloc, front(&update.all, SIX)?)?;
    update.replays_rest(&rt, alloc, ONE_MISSING)?;
    update.replays_front(&rt, alloc, SIX, WHOLE)?;
    the_sixth_is_in_a_slot(&rt, alloc, &mut update.receiver)
}

fn the_sixth_is_in_a_slot(
    rt: &impl Abort,
    alloc: Global,
    receiver: &mut Receiver,
) -> Result<(), Fail> {
    let file = file(alloc)?;
    let sixth = file.get(20_330..24_396).ok_or("a block")?;
    assert!(rt; receiver.has_at(SLOTS_1 + 256, sixth));
    receiver.boots(rt, alloc, &file)
}

#[test]
fn a_group_that_is_whole_but_for_its_record_is_installed_at_its_dii(
    rt: HostRuntime,
) -> Result<(), Fail> {
    let alloc = rt.alloc();
    let mut update = Update::new(alloc)?;
    update.replays_front(&rt, alloc, SIX, FOUR_MISSING)?;
    update.receiver.restart(alloc)?;
    // the last call of the other four blocks, which programs the record
    update.receiver.flash.stop_at(72, Tear::Front(0));
    update.receiver.fails(&rt, alloc, &update.without)?;
    update.receiver.restart(alloc)?;
    update.receiver.boots(&rt, alloc, OLD)?;
    update.replays_front(&rt, alloc, HEAD, WHOLE)?;
    update.receiver.boots(&rt, alloc, &file(alloc)?)
}

#[test]
fn wrong_bytes_are_not_kept(rt: HostRuntime) -> Result<(), Fail> {
    let alloc = rt.alloc();
    let sent = receiver_of(alloc, &file_of(alloc, 9, 40_660)?)?.packets(alloc)?;
    let mut update = Update::new(alloc)?;
    // the DII of the one file, and the blocks of the other
    let first = joined(alloc, &update.all, sent.get(HEAD..SIX))?;
    update.receiver.replays(&rt, alloc, &first, FOUR_MISSING)?;
    is_bad(&rt, alloc, &mut update)?;
    update.replays_rest(&rt, alloc, SIX_MISSING)
}

/// Replays the packets without the first six blocks, where the six that were kept are wrong.
fn is_bad(rt: &impl Abort, alloc: Global, update: &mut Update) -> Result<(), Fail> {
    update.receiver.restart(alloc)?;
    let wrong = update
        .receiver
        .run(alloc, &["folder", "replay"], &update.without)?;
    same(rt, &wrong.status.code(), &8);
    assert!(rt; wrong.put.starts_with(b"bad module 1 want"));
    Ok(())
}
